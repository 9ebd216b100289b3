//! The pairs of an event, which its line shows.

ghost use Rattle.std.specs.Prelude.{◌≡◌, ◌∷◌, [], codes, decimal, option_map, OnOk, IfSome};
ghost use Rattle.std.specs.List.{FoldsTo};
ghost use Rattle.archive_log.specs.Lines.{pairs_of, folder_pairs, peer_text, ruleset_text, fault_text, cause_text, drop_text};

use crate::cause_words::CauseWords;
use crate::log_event::LogEvent;
use crate::lost_words::LostWords;
use crate::peer::peer_address;
use crate::upload::Upload;
use archive_history::HistoryFault;
use archive_server::DropCause;
use archive_table::FailureCause;
use byte_output::Printable;
use log::kv;
use log::kv::{Source, ToValue, VisitSource, display};
use tftp_packet::{Endpoint, Refusal};
use tws_file::{FileFault, Ruleset};

// The name of a ruleset, or `none`.
fn ruleset_word(ruleset: Option<Ruleset>) -> &'static str
    ensures { result.now ≡ ruleset_text «ruleset» }
{
    match ruleset {
        None => "none",
        Some(ruleset) => ruleset.name(),
    }
}

// The name of a fault, or `none`.
fn fault_word(fault: Option<FileFault>) -> &'static str
    ensures { result.now ≡ fault_text fault }
{
    match fault {
        None => "none",
        Some(FileFault::ShortHeader(_)) => "ShortHeader",
        Some(FileFault::BadSignature) => "BadSignature",
        Some(FileFault::BadRuleset(_)) => "BadRuleset",
        Some(FileFault::ShortRecord(_)) => "ShortRecord",
        Some(FileFault::BadSize(_)) => "BadSize",
        Some(FileFault::MoveCut(_)) => "MoveCut",
        Some(FileFault::Memory) => "Memory",
    }
}

/// Hands one pair to the visitor.
pub(crate) fn visit_pair<V: VisitSource, T: ToValue>(
    visitor: &mut V,
    key: &'static str,
    value: &T,
) -> Result<(), kv::Error>
    ensures { OnOk result (IfSome (T.text value.now) (λ text. V.visit_pair_gives visitor.old (key.now, text) visitor.new)) }
{
    visitor.visit_pair(key, value.to_value())
}

// The pair that most lines begin with.
fn visit_peer<V: VisitSource>(visitor: &mut V, peer: Endpoint) -> Result<(), kv::Error>
    ensures { OnOk result (V.visit_pair_gives visitor.old (codes "peer", peer_text peer) visitor.new) }
{
    visit_pair(visitor, "peer", &display(peer_address(peer)))
}

fn visit_folder<V: VisitSource>(visitor: &mut V, folder: Option<&str>) -> Result<(), kv::Error>
    ensures { OnOk result (FoldsTo V.visit_pair_gives visitor.old (folder_pairs (option_map (λ f. f.now) folder.entry)) visitor.new) }
{
    match folder {
        Some(folder) => visit_pair(
            visitor,
            "folder",
            &display(Printable::of(folder.as_bytes())),
        ),
        None => Ok(()),
    }
}

// Two numbers, which some lines end with.
fn visit_numbers<V: VisitSource>(
    visitor: &mut V,
    first: (&'static str, u64),
    second: (&'static str, u64),
) -> Result<(), kv::Error>
    ensures { OnOk result (FoldsTo V.visit_pair_gives visitor.old ((first.entry.0.now, decimal first.entry.1) ∷ (second.entry.0.now, decimal second.entry.1) ∷ []) visitor.new) }
{
    visit_pair(visitor, first.0, &first.1)?;
    visit_pair(visitor, second.0, &second.1)
}

// The last block of a transfer that failed, and why it did.
fn visit_failure<V: VisitSource>(
    visitor: &mut V,
    block: u16,
    why: FailureCause,
) -> Result<(), kv::Error>
    ensures { OnOk result (FoldsTo V.visit_pair_gives visitor.old ((codes "block", decimal block) ∷ (codes "why", cause_text why) ∷ []) visitor.new) }
{
    visit_pair(visitor, "block", &block)?;
    visit_pair(visitor, "why", &display(CauseWords(why)))
}

fn visit_started<V: VisitSource>(
    visitor: &mut V,
    at: Endpoint,
    lynx: u64,
    ms: u64,
    folder: Option<&str>,
) -> Result<(), kv::Error>
    ensures { OnOk result (FoldsTo V.visit_pair_gives visitor.old (pairs_of (LogEvent.Started at lynx ms folder.entry)) visitor.new) }
{
    visit_pair(visitor, "at", &display(peer_address(at)))?;
    visit_pair(visitor, "lynx", &lynx)?;
    visit_pair(visitor, "ms", &ms)?;
    visit_folder(visitor, folder)
}

fn visit_refused<V: VisitSource>(
    visitor: &mut V,
    peer: Endpoint,
    why: Refusal,
) -> Result<(), kv::Error>
    ensures { OnOk result (FoldsTo V.visit_pair_gives visitor.old (pairs_of (LogEvent.Refused peer why)) visitor.new) }
{
    visit_peer(visitor, peer)?;
    visit_pair(visitor, "why", &display(Printable::of(why.text())))
}

// Why a request was dropped, in words.
fn drop_words(why: DropCause) -> &'static str
    ensures { result.now ≡ drop_text why }
{
    match why {
        DropCause::ManyTransfers => "too many transfers of its host",
        DropCause::LargeCollection => "too many transfers of so large a collection",
        DropCause::NotPutter => "not allowed to put",
    }
}

fn visit_dropped<V: VisitSource>(
    visitor: &mut V,
    peer: Endpoint,
    why: DropCause,
) -> Result<(), kv::Error>
    ensures { OnOk result (FoldsTo V.visit_pair_gives visitor.old (pairs_of (LogEvent.Dropped peer why)) visitor.new) }
{
    visit_peer(visitor, peer)?;
    visit_pair(visitor, "why", &drop_words(why))
}

fn visit_taken<V: VisitSource>(
    visitor: &mut V,
    upload: &Upload,
    millis: u64,
) -> Result<(), kv::Error>
    ensures { OnOk result (FoldsTo V.visit_pair_gives visitor.old (pairs_of (LogEvent.Taken upload.now millis)) visitor.new) }
{
    visit_peer(visitor, upload.peer)?;
    visit_pair(visitor, "bytes", &upload.bytes)?;
    visit_pair(visitor, "ruleset", &ruleset_word(upload.ruleset))?;
    visit_pair(visitor, "fault", &fault_word(upload.fault))?;
    visit_numbers(visitor, ("better", upload.better), ("millis", millis))
}

fn visit_put_failed<V: VisitSource>(
    visitor: &mut V,
    peer: Endpoint,
    block: u16,
    why: FailureCause,
) -> Result<(), kv::Error>
    ensures { OnOk result (FoldsTo V.visit_pair_gives visitor.old (pairs_of (LogEvent.PutFailed peer block why)) visitor.new) }
{
    visit_peer(visitor, peer)?;
    visit_failure(visitor, block, why)
}

fn visit_get_failed<V: VisitSource>(
    visitor: &mut V,
    peer: Endpoint,
    ruleset: Ruleset,
    block: u16,
    why: FailureCause,
) -> Result<(), kv::Error>
    ensures { OnOk result (FoldsTo V.visit_pair_gives visitor.old (pairs_of (LogEvent.GetFailed peer «ruleset» block why)) visitor.new) }
{
    visit_peer(visitor, peer)?;
    visit_pair(visitor, "ruleset", &ruleset.name())?;
    visit_failure(visitor, block, why)
}

fn visit_get_finished<V: VisitSource>(
    visitor: &mut V,
    peer: Endpoint,
    ruleset: Ruleset,
    bytes: u64,
    millis: u64,
) -> Result<(), kv::Error>
    ensures { OnOk result (FoldsTo V.visit_pair_gives visitor.old (pairs_of (LogEvent.GetFinished peer «ruleset» bytes millis)) visitor.new) }
{
    visit_peer(visitor, peer)?;
    visit_pair(visitor, "ruleset", &ruleset.name())?;
    visit_numbers(visitor, ("bytes", bytes), ("millis", millis))
}

fn visit_keep_failed<V: VisitSource>(
    visitor: &mut V,
    ruleset: Ruleset,
    bytes: u64,
    why: &str,
) -> Result<(), kv::Error>
    ensures { OnOk result (FoldsTo V.visit_pair_gives visitor.old (pairs_of (LogEvent.KeepFailed «ruleset» bytes why.entry)) visitor.new) }
{
    visit_pair(visitor, "ruleset", &ruleset.name())?;
    visit_pair(visitor, "bytes", &bytes)?;
    visit_pair(visitor, "why", &display(Printable::of(why.as_bytes())))
}

fn visit_not_recorded<V: VisitSource>(
    visitor: &mut V,
    peer: Endpoint,
    why: HistoryFault,
    cause: Option<&str>,
) -> Result<(), kv::Error>
    ensures { OnOk result (FoldsTo V.visit_pair_gives visitor.old (pairs_of (LogEvent.NotRecorded peer why cause.entry)) visitor.new) }
{
    visit_peer(visitor, peer)?;
    visit_pair(visitor, "why", &display(LostWords { why, cause }))
}

fn visit_stopped<V: VisitSource>(visitor: &mut V, taken: u64, served: u64) -> Result<(), kv::Error>
    ensures { OnOk result (FoldsTo V.visit_pair_gives visitor.old (pairs_of (LogEvent.Stopped taken served)) visitor.new) }
{
    visit_numbers(visitor, ("taken", taken), ("served", served))
}

/// The pairs of its line, without the time.
impl Source for LogEvent<'_> {
    ghost use Rattle.std.specs.Prelude.{Some};
    ghost use Rattle.archive_log.specs.Lines.{pairs_of};

    ghost pairs = { λ event. Some (pairs_of event) };

    fn visit<V: VisitSource>(&self, visitor: &mut V) -> Result<(), kv::Error> {
        match self {
            LogEvent::Started {
                at,
                lynx,
                ms,
                folder,
            } => visit_started(visitor, *at, *lynx, *ms, *folder),
            LogEvent::Refused { peer, why } => visit_refused(visitor, *peer, *why),
            LogEvent::Dropped { peer, why } => visit_dropped(visitor, *peer, *why),
            LogEvent::LeftOut { count } => visit_pair(visitor, "count", count),
            LogEvent::Taken { upload, millis } => visit_taken(visitor, upload, *millis),
            LogEvent::PutFailed { peer, block, why } => visit_put_failed(
                visitor, *peer, *block, *why,
            ),
            LogEvent::GetFailed {
                peer,
                ruleset,
                block,
                why,
            } => visit_get_failed(visitor, *peer, *ruleset, *block, *why),
            LogEvent::GetFinished {
                peer,
                ruleset,
                bytes,
                millis,
            } => visit_get_finished(visitor, *peer, *ruleset, *bytes, *millis),
            LogEvent::KeepFailed {
                ruleset,
                bytes,
                why,
            } => visit_keep_failed(visitor, *ruleset, *bytes, *why),
            LogEvent::AlreadyRecorded { peer } => visit_peer(visitor, *peer),
            LogEvent::NotRecorded { peer, why, cause } => visit_not_recorded(
                visitor, *peer, *why, *cause,
            ),
            LogEvent::Stopped { taken, served } => visit_stopped(visitor, *taken, *served),
        }
    }
}
