//! What holds for a keeper that has nothing. The function does nothing: its contract is a theorem.

ghost use Rattle.std.specs.Prelude.{◌≡◌, List, [], Option, Some};
ghost use Rattle.archive_table.specs.Keeper.{Keeping};
ghost use Rattle.archive_model.specs.World.{Event, Origin, first_world, start};
ghost use Rattle.archive_model.specs.Restarts.{FailsOutside};
ghost use Rattle.archive_theorem.specs.Headline.{Headline};
ghost use Rattle.archive_world.specs.Outcomes.{Outcome};
ghost use Rattle.archive_world.specs.Replays.{BeginsFrom, HasRunFrom};

/// With a keeper that has nothing `replay_from` begins with nothing: its runs are runs from `start`, and the whole headline
/// holds for its outcome. Its start fails only by a fault of the keeper or out of memory.
pub fn empty_keeper()
    ensures start { (o : Origin) → BeginsFrom (Some []) o → first_world o ≡ start }
    ensures headline { (o : Origin) → BeginsFrom (Some []) o → (events : List Event) (now : Option (List Keeping)) (outcome : Outcome)
        (r : HasRunFrom o events (Some []) now outcome) → Headline r.world }
    ensures fails { FailsOutside [] }
{}
