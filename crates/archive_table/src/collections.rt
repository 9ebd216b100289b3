//! A file that was received whole is merged into the collection of its ruleset.

ghost use Rattle.std.specs.Prelude.{◌≡◌, ◌≢◌, ◌⊎◌, ◌↔◌, Err, OnOk, OnErr, IfOk, IfErr};
ghost use Rattle.tws_file.specs.declared.«ruleset».Ruleset.TheVariants.{Lynx, Ms};
ghost use Rattle.archive_table.specs.Table.{IsMerged, Maps};
ghost use Rattle.archive_table.specs.Events.{IsFaultOf};
ghost use Rattle.archive_table.specs.Keeper.{KeepsMaps, RefusesFile};

use crate::file_merge::ruleset_of;
use crate::keeper::Keeper;
use crate::published::Published;
use crate::step_event::Merged;
use std::alloc::Allocator;
use tftp_ends::Received;
use tftp_packet::Refusal;
use tws_file::Ruleset;

/// Merges a received file into the collection of its ruleset, which is kept if that changed it. On error nothing changes.
pub(crate) fn merge_file<A: Allocator + Copy, K: Keeper>(
    alloc: A,
    lynx: &mut Published<A>,
    ms: &mut Published<A>,
    keeper: &mut K,
    file: &Received<A>,
) -> Result<Merged, Refusal>
    requires lynx { lynx.old.ruleset ≡ Lynx }
    requires ms { ms.old.ruleset ≡ Ms }
    ensures fault { IfOk result (λ merged. IsFaultOf file.now merged.fault) }
    ensures better { IfOk result (λ merged. (merged.better ≡ 0) ↔ (let old : Maps = record { lynx = lynx.old; ms = ms.old } in let new : Maps = record { lynx = lynx.new; ms = ms.new } in new ≡ old)) }
    ensures merged { OnOk result (IsMerged file.now (record { lynx = lynx.old; ms = ms.old }) (record { lynx = lynx.new; ms = ms.new })) }
    ensures lynx { OnErr result (lynx.new ≡ lynx.old) }
    ensures ms { OnErr result (ms.new ≡ ms.old) }
    ensures rules { (lynx.new.ruleset ≡ lynx.old.ruleset) × (ms.new.ruleset ≡ ms.old.ruleset) }
    ensures refusal { IfErr result (λ e. (e ≡ Refusal.OutOfMemory) ⊎ (e ≡ Refusal.NotKept)) }
    ensures kept { OnOk result (KeepsMaps (record { lynx = lynx.old; ms = ms.old }) (record { lynx = lynx.new; ms = ms.new }) (K.calls keeper.old) (K.calls keeper.new)) }
    ensures unkept { IfErr result (λ e. RefusesFile e file.now (record { lynx = lynx.old; ms = ms.old }) (K.calls keeper.old) (K.calls keeper.new)) }
    ensures untouched { result ≢ Err Refusal.NotKept → lynx.new ≡ lynx.old → ms.new ≡ ms.old → keeper.new ≡ keeper.old }
{
    // Bytes of no ruleset are not a solution file: they change neither collection, whichever they are merged into.
    match ruleset_of(file).unwrap_or(Ruleset::Lynx) {
        Ruleset::Lynx => lynx.merge(alloc, keeper, file),
        Ruleset::Ms => ms.merge(alloc, keeper, file),
    }
}
