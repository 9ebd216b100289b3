//! Clears a folder of what a server that was killed may have left in it.

ghost use Rattle.std.specs.Prelude.{◌≡◌, ◌≤◌, ℕ, List, Option, true, None, OnOk, OnErr};
ghost use Rattle.tws_file.specs.declared.«ruleset».Ruleset.{Ruleset};
ghost use Rattle.byte_output.specs.Failures.{Rises};
ghost use Rattle.folders.specs.Folder.{Only, Stays, IsSettled};
ghost use Rattle.archive_keepers.specs.Names.{kept_name, draft_name};

use crate::names::{draft_name as draft_of, kept_name as name_of};
use folders::{CallFault, Folder, clear_draft};
use tws_file::Ruleset;

// Clears the drafts of both rulesets.
fn clear_both<F: Folder>(folder: &mut F) -> Result<(), CallFault>
    ensures cleared { F.has_model ≡ true → OnOk result ((rules : Ruleset) → Only None (F.model.reads folder.new (draft_name rules))) }
    ensures kept { F.has_model ≡ true → (rules : Ruleset) → Stays F.model folder.old folder.new (kept_name rules) }
    ensures more { F.faults folder.old ≤ F.faults folder.new }
    ensures fault { OnErr result (Rises (F.faults folder.old) (F.faults folder.new)) }
{
    clear_draft(folder, draft_of(Ruleset::Lynx), name_of(Ruleset::Lynx))?;
    clear_draft(folder, draft_of(Ruleset::Ms), name_of(Ruleset::Ms))
}

/// Clears the drafts of both rulesets, and syncs the folder.
///
/// # Errors
///
/// If a call of the folder fails.
pub(crate) fn clear_drafts<F: Folder>(folder: &mut F) -> Result<(), CallFault>
    ensures cleared { F.has_model ≡ true → OnOk result ((rules : Ruleset) → Only None (F.model.reads folder.new (draft_name rules))) }
    ensures kept { F.has_model ≡ true → (rules : Ruleset) → Stays F.model folder.old folder.new (kept_name rules) }
    // Then a crash leaves of each collection what could be read before, as its file holds it.
    ensures settled { F.has_model ≡ true → OnOk result ((rules : Ruleset) (left : Option (List ℕ)) → F.model.leaves folder.new (kept_name rules) left → IsSettled (F.model.reads folder.old (kept_name rules)) (F.model.holds folder.old (kept_name rules)) left) }
    ensures more { F.faults folder.old ≤ F.faults folder.new }
    ensures fault { OnErr result (Rises (F.faults folder.old) (F.faults folder.new)) }
{
    clear_both(folder)?;
    folder.sync_folder()
}
