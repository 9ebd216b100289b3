//! What holds for every run and every crash. These functions do nothing: each contract is a theorem.

ghost use Rattle.std.specs.Prelude.{◌≡◌, ℕ, List, Option};
ghost use Rattle.tws_file.specs.declared.«ruleset».Ruleset.{Ruleset};
ghost use Rattle.archive_table.specs.Table.{Maps, map_of};
ghost use Rattle.archive_table.specs.Keeper.{IsLoaded};
ghost use Rattle.archive_model.specs.World.{Origin, RunFrom, last_world, happens};
ghost use Rattle.archive_durable.specs.Crashes.{StayKept, HasCollections, ComesNext, RunOver, end_of, NextStep, DoesAsStepKeeps, StartsWith, IsKnownNext, SurvivesNow, SurvivesSince};
ghost use Rattle.archive_durable.specs.Perfect.{perfect};

use folders::Folder;

/// For every folder that begins with the collections that a run begins with, and of which each event of the run makes what the
/// server's keeper says: whatever a crash at any moment leaves under the names of the collections is loaded, and what is loaded
/// holds all that was promised by then.
pub fn crash_law<F: Folder>()
    // Between two events a load, and so a restart, gives the server's collections.
    ensures has { (o : Origin) (r : RunOver F.model o) → HasCollections F.model r.last (end_of r).server.maps }
    ensures between { (o : Origin) (r : RunOver F.model o) → SurvivesNow F.model r.last (end_of r) }
    // During a step what was promised before it is held, whatever becomes of the step.
    ensures during { (o : Origin) (r : RunOver F.model o) (n : NextStep F.model (end_of r) r.last) →
        SurvivesSince F.model n.ended (F.model.moment r.last) (end_of r) }
    // After it, and after the start that may follow, so is what the step has promised.
    ensures after { (o : Origin) (r : RunOver F.model o) (n : NextStep F.model (end_of r) r.last) (next : F) →
        ComesNext F.model n.step.event (happens n.step (end_of r)) n.ended next → SurvivesNow F.model next (happens n.step (end_of r)) }
    // And during calls that keep nothing, such as those of a start.
    ensures idle { (o : Origin) (r : RunOver F.model o) (next : F) → StayKept F.model r.last next →
        SurvivesSince F.model next (F.model.moment r.last) (end_of r) }
    // What a delivery does follows from which calls the server makes, and what each of them does.
    ensures calls { (o : Origin) (r : RunFrom o) (last ended : F) → DoesAsStepKeeps F.model (last_world r) last ended }
    // A keep whose outcome is unknown, and the start after it, are a step of the world.
    ensures known { (o : Origin) (r : RunOver F.model o) → IsKnownNext F.model (end_of r) r.last }
    // A run may begin with what a start reads, if a crash then leaves that.
    ensures start { (folder : F) (text : Ruleset → Option (List ℕ)) (maps : Maps) → StartsWith F.model folder text →
        ((named : Ruleset) → IsLoaded named (text named) (map_of named maps)) → HasCollections F.model folder maps }
{}

/// For every run there is such a folder: one that replaces collections at once.
pub fn perfect_folder()
    ensures { (o : Origin) (r : RunFrom o) → (over : RunOver perfect o) × (over.run ≡ r) }
{}
