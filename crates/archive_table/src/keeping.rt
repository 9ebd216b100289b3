//! A file that was received whole is merged into a collection, which is kept if the file changed it.

ghost use Rattle.std.specs.Prelude.{◌≡◌, ◌≢◌, ◌⊎◌, nat_lt, Ok, Err, OnOk, OnErr, IfOk, IfErr, MatchBool};
ghost use Rattle.tws_best.specs.Best.{IsCollected};
ghost use Rattle.archive_table.specs.Events.{IsFaultOf};
ghost use Rattle.archive_table.specs.FileMerge.{MergesFile, RefusesOne, left_by};
ghost use Rattle.archive_table.specs.Keeper.{KeepsOne};

use crate::file_merge::merge_chunks;
use crate::keeper::Keeper;
use crate::step_event::Merged;
use std::alloc::Allocator;
use std::mem;
use tftp_ends::Received;
use tftp_packet::Refusal;
use tws_best::{Collection, Merge};

// Merges a received file, and keeps the collection if that changed it. If not, or on error, the merge is to be undone.
// Nothing is allocated after the keep.
fn merge_and_keep<A: Allocator + Copy, K: Keeper>(
    alloc: A,
    merge: &mut Merge<A>,
    keeper: &mut K,
    file: &Received<A>,
) -> Result<Merged, Refusal>
    requires begun { merge.old.now ≡ merge.old.first }
    requires fits { IsCollected merge.old.now }
    ensures first { merge.new.first ≡ merge.old.first }
    ensures rules { merge.new.now.ruleset ≡ merge.old.first.ruleset }
    ensures fault { IfOk result (λ merged. IsFaultOf file.now merged.fault) }
    ensures merged { IfOk result (λ merged. MergesFile file.now merge.old.first (left_by (nat_lt 0 merged.better) merge.new)) }
    ensures changed { IfOk result (λ merged. MatchBool (nat_lt 0 merged.better) (left_by (nat_lt 0 merged.better) merge.new ≢ merge.old.first) (left_by (nat_lt 0 merged.better) merge.new ≡ merge.old.first)) }
    ensures kept { IfOk result (λ merged. KeepsOne merge.old.first (left_by (nat_lt 0 merged.better) merge.new) (K.calls keeper.old) (K.calls keeper.new)) }
    ensures refusal { IfErr result (λ e. (e ≡ Refusal.OutOfMemory) ⊎ (e ≡ Refusal.NotKept)) }
    ensures unkept { IfErr result (λ e. RefusesOne e file.now merge.old.first (K.calls keeper.old) (K.calls keeper.new)) }
    ensures untouched { result ≢ Err Refusal.NotKept → IfOk result (λ merged. merged.better ≡ 0) → keeper.new ≡ keeper.old }
{
    let Ok(fault) = merge_chunks(alloc, merge, file) else {
        return Err(Refusal::OutOfMemory);
    };
    if fault.is_some() {
        return Ok(Merged { fault, better: 0 });
    }
    let better = merge.changes() as u64;
    if better == 0 {
        return Ok(Merged { fault, better });
    }
    let collection = merge.collection();
    if keeper.keep(collection.ruleset(), collection).is_err() {
        return Err(Refusal::NotKept);
    }
    Ok(Merged { fault, better })
}

/// Merges a received file into a collection, which is kept if that changed it. On error it does not change.
pub(crate) fn merge_into<A: Allocator + Copy, K: Keeper>(
    alloc: A,
    collection: &mut Collection<A>,
    keeper: &mut K,
    file: &Received<A>,
) -> Result<Merged, Refusal>
    ensures fault { IfOk result (λ merged. IsFaultOf file.now merged.fault) }
    ensures merged { OnOk result (MergesFile file.now collection.old collection.new) }
    ensures changed { IfOk result (λ merged. MatchBool (nat_lt 0 merged.better) (collection.new ≢ collection.old) (collection.new ≡ collection.old)) }
    ensures unchanged { OnErr result (collection.new ≡ collection.old) }
    ensures rules { collection.new.ruleset ≡ collection.old.ruleset }
    ensures refusal { IfErr result (λ e. (e ≡ Refusal.OutOfMemory) ⊎ (e ≡ Refusal.NotKept)) }
    ensures kept { OnOk result (KeepsOne collection.old collection.new (K.calls keeper.old) (K.calls keeper.new)) }
    ensures unkept { IfErr result (λ e. RefusesOne e file.now collection.old (K.calls keeper.old) (K.calls keeper.new)) }
    ensures untouched { result ≢ Err Refusal.NotKept → collection.new ≡ collection.old → keeper.new ≡ keeper.old }
{
    let empty = Collection::new(alloc, collection.ruleset());
    let mut merge = Merge::of(mem::replace(collection, empty));
    match merge_and_keep(alloc, &mut merge, keeper, file) {
        Ok(merged) => {
            if merged.better > 0 {
                *collection = merge.finish();
            } else {
                *collection = merge.undo();
            }
            Ok(merged)
        }
        Err(why) => {
            *collection = merge.undo();
            Err(why)
        }
    }
}
