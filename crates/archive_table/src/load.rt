//! Loads the collections that a keeper has.

ghost use Rattle.std.specs.Prelude.{◌≡◌, ◌≤◌, Some, Err, IfOk, IfErr};
ghost use Rattle.archive_table.specs.Keeper.{IsLoaded, LoadedFrom, IsMisread, FailsToLoad};
ghost use Rattle.byte_output.specs.Failures.{Rises};

use crate::keep_fault::KeepFault;
use crate::keeper::Keeper;
use crate::load_fault::LoadFault;
use std::alloc::Allocator;
use tws_best::Collection;
use tws_file::{FileFault, Ruleset};
use tws_reader::read_file;

// Reads the text of a collection of this ruleset.
fn read_collection<A: Allocator + Copy>(
    alloc: A,
    bytes: &[u8],
    ruleset: Ruleset,
) -> Result<Collection<A>, LoadFault>
    ensures loaded { IfOk result (λ c. IsLoaded «ruleset» (Some bytes.now) c) }
    ensures rules { IfOk result (λ c. c.ruleset ≡ «ruleset») }
    ensures fault { IfErr result (λ e. IsMisread «ruleset» bytes.now e) }
{
    let file = match read_file(alloc, bytes) {
        Ok(file) => file,
        Err(FileFault::Memory) => return Err(LoadFault::Memory),
        Err(fault) => return Err(LoadFault::Unreadable(fault)),
    };
    if file.ruleset == ruleset {
        match Collection::load(alloc, &file) {
            Ok(collection) => Ok(collection),
            Err(_) => Err(LoadFault::Memory),
        }
    } else {
        Err(LoadFault::WrongRuleset)
    }
}

/// The collection of this ruleset that a keeper has, empty if it has none.
pub(crate) fn load_collection<A: Allocator + Copy, K: Keeper>(
    alloc: A,
    keeper: &mut K,
    ruleset: Ruleset,
) -> Result<Collection<A>, LoadFault>
    ensures calls { K.calls keeper.new ≡ K.calls keeper.old }
    ensures loaded { IfOk result (λ c. LoadedFrom «ruleset» (K.calls keeper.old) c) }
    ensures rules { IfOk result (λ c. c.ruleset ≡ «ruleset») }
    ensures fault { IfErr result (λ e. FailsToLoad «ruleset» (K.calls keeper.old) e) }
    ensures more { K.failed keeper.old ≤ K.failed keeper.new }
    ensures failed { result ≡ Err (LoadFault.Keep KeepFault.Device) → Rises (K.failed keeper.old) (K.failed keeper.new) }
{
    let text = match keeper.load(alloc, ruleset) {
        Ok(text) => text,
        Err(fault) => return Err(LoadFault::Keep(fault)),
    };
    match text {
        None => Ok(Collection::new(alloc, ruleset)),
        Some(bytes) => read_collection(alloc, bytes.as_slice(), ruleset),
    }
}
