//! A sync of two archives over any wire.

ghost use Rattle.std.specs.Prelude.{◌≡◌, ◌≢◌, ◌≤◌, true, not, ◌&&◌};
ghost use Rattle.archive_commands.specs.Syncing.{Goes, PutsAll, PutsNews, PutsTold, SyncEnds, are_apart, counts_in, first_of, has_shared, is_unreadable};

use crate::limits::ROUNDS;
use crate::sync::SyncArguments;
use crate::sync_part::{Way, put_reported};
use crate::sync_reporting::{no_level_in_common, report_news};
use crate::transfer_wire::TransferWire;
use archive_sync::{News, SyncFault, fetch_news};
use command_line::{DONE, UNREADABLE};
use std::alloc::Global;
use std::io::Write;
use tftp_packet::Endpoint;
use tws_compare::Counts;
use tws_file::Ruleset;

/// The two archives of a sync, each by its host and request port.
#[derive(Clone, Copy, Debug)]
pub(crate) struct Ends {
    pub(crate) from: Endpoint,
    pub(crate) to: Endpoint,
}

/// The status of the first of two faults.
pub(crate) fn first_of(status: u8, next: u8) -> u8
    ensures { result ≡ first_of status next }
{
    if status == DONE { next } else { status }
}

// Whether something that was fetched is no solution file, by the statuses of the two rulesets.
fn is_unreadable(lynx: u8, ms: u8) -> bool
    ensures { result ≡ is_unreadable lynx ms }
{
    lynx == UNREADABLE || ms == UNREADABLE
}

// Whether a level is in both collections.
fn has_shared(counts: Counts) -> bool
    ensures { result ≡ has_shared counts }
{
    counts.mine_better > 0 || counts.theirs_better > 0 || counts.equal > 0 || counts.tied > 0
}

// Whether what was fetched has solutions on both sides, and no level in common.
fn are_apart(lynx: Counts, ms: Counts) -> bool
    ensures { result ≡ are_apart lynx ms }
{
    !(has_shared(lynx) || has_shared(ms))
        && (lynx.only_mine > 0 || ms.only_mine > 0)
        && (lynx.only_theirs > 0 || ms.only_theirs > 0)
}

// The counts of what was fetched; what was not has no levels.
fn counts_in(news: &Result<News, SyncFault>) -> Counts
    ensures { result ≡ counts_in news.now }
{
    match news {
        Ok(news) => news.counts(),
        Err(_) => Counts {
            levels: 0,
            only_mine: 0,
            only_theirs: 0,
            mine_better: 0,
            theirs_better: 0,
            equal: 0,
            tied: 0,
        },
    }
}

// Puts what two archives have to tell each other of a ruleset: what is better at `from`, and if it is asked for what is
// better at `to`. Returns the status.
fn put_told<N: TransferWire, W: Write, E: Write>(
    wire: &mut N,
    alloc: Global,
    ends: Ends,
    ruleset: Ruleset,
    news: News,
    arguments: &SyncArguments,
    out: &mut W,
    errors: &mut E,
) -> u8
    ensures puts { PutsTold ends.from ends.to «ruleset» arguments.now.both news result (N.calls wire.old) (N.calls wire.new) (W.contents out.old) (W.contents out.new) }
    ensures usage { result ≢ 1 }
    ensures readable { result ≢ 3 }
    ensures few { result ≤ 4 }
    ensures silent { result ≡ 0 → errors.new ≡ errors.old }
{
    let (forth, back) = news.into_parts();
    let way = Way {
        ruleset,
        back: false,
    };
    let one = put_reported(wire, alloc, ends.to, way, forth, arguments, out, errors);
    if !arguments.both {
        return one;
    }
    let way = Way {
        ruleset,
        back: true,
    };
    let two = put_reported(wire, alloc, ends.from, way, back, arguments, out, errors);
    first_of(one, two)
}

// Puts what was fetched, if it was, and returns the status.
fn put_news<N: TransferWire, W: Write, E: Write>(
    wire: &mut N,
    alloc: Global,
    ends: Ends,
    ruleset: Ruleset,
    news: Result<News, SyncFault>,
    arguments: &SyncArguments,
    out: &mut W,
    errors: &mut E,
) -> u8
    ensures puts { PutsNews ends.from ends.to «ruleset» arguments.now.both news result (N.calls wire.old) (N.calls wire.new) (W.contents out.old) (W.contents out.new) }
    ensures usage { result ≢ 1 }
    ensures readable { result ≢ 3 }
    ensures few { result ≤ 4 }
    ensures silent { result ≡ 0 → errors.new ≡ errors.old }
{
    match news {
        Ok(news) => put_told(wire, alloc, ends, ruleset, news, arguments, out, errors),
        Err(_fault) => DONE,
    }
}

// Puts what was fetched of both rulesets, and returns the status.
fn put_all<N: TransferWire, W: Write, E: Write>(
    wire: &mut N,
    alloc: Global,
    ends: Ends,
    lynx: Result<News, SyncFault>,
    ms: Result<News, SyncFault>,
    arguments: &SyncArguments,
    out: &mut W,
    errors: &mut E,
) -> u8
    ensures puts { PutsAll ends.from ends.to arguments.now.both lynx ms result (N.calls wire.old) (N.calls wire.new) (W.contents out.old) (W.contents out.new) }
    ensures usage { result ≢ 1 }
    ensures readable { result ≢ 3 }
    ensures few { result ≤ 4 }
    ensures silent { result ≡ 0 → errors.new ≡ errors.old }
{
    let one = put_news(
        wire,
        alloc,
        ends,
        Ruleset::Lynx,
        lynx,
        arguments,
        out,
        errors,
    );
    let two = put_news(wire, alloc, ends, Ruleset::Ms, ms, arguments, out, errors);
    first_of(one, two)
}

// Goes on once both rulesets were fetched with these statuses, and returns the status.
fn go_on<N: TransferWire, W: Write, E: Write>(
    wire: &mut N,
    alloc: Global,
    ends: Ends,
    early: u8,
    unreadable: bool,
    lynx: Result<News, SyncFault>,
    ms: Result<News, SyncFault>,
    arguments: &SyncArguments,
    out: &mut W,
    errors: &mut E,
) -> u8
    ensures goes { Goes unreadable (not arguments.now.new_archives && are_apart (counts_in lynx) (counts_in ms)) ends.from ends.to arguments.now.both lynx ms early result (N.calls wire.old) (N.calls wire.new) (W.contents out.old) (W.contents out.new) }
    ensures usage { early ≢ 1 → result ≡ 1 → out.new ≡ out.old }
    ensures readable { (early ≡ 3 → unreadable ≡ true) → result ≡ 3 → out.new ≡ out.old }
    ensures early { result ≡ 0 → early ≡ 0 }
    ensures few { early ≤ 4 → result ≤ 4 }
    ensures silent { result ≡ 0 → errors.new ≡ errors.old }
{
    if unreadable {
        return early;
    }
    if !arguments.new_archives && are_apart(counts_in(&lynx), counts_in(&ms)) {
        return first_of(early, no_level_in_common(arguments, errors));
    }
    let late = put_all(wire, alloc, ends, lynx, ms, arguments, out, errors);
    first_of(early, late)
}

/// Brings what is better at one archive to another one, as `sync` does, and returns the status. `from` and `to` are their
/// hosts and request ports.
pub(crate) fn sync_archives<N: TransferWire, W: Write, E: Write>(
    wire: &mut N,
    alloc: Global,
    ends: Ends,
    arguments: &SyncArguments,
    out: &mut W,
    errors: &mut E,
) -> u8
    ensures ended { SyncEnds ends.from ends.to arguments.now.both arguments.now.new_archives result (N.calls wire.old) (N.calls wire.new) (W.contents out.old) (W.contents out.new) }
    ensures usage { result ≡ 1 → out.new ≡ out.old }
    ensures unreadable { result ≡ 3 → out.new ≡ out.old }
    ensures few { result ≤ 4 }
    ensures silent { result ≡ 0 → errors.new ≡ errors.old }
{
    // No progress is shown.
    wire.finish();
    let Ends { from, to } = ends;
    let lynx = fetch_news(alloc, wire, from, to, Ruleset::Lynx, ROUNDS);
    let first = report_news(&lynx, arguments, wire, errors);
    let ms = fetch_news(alloc, wire, from, to, Ruleset::Ms, ROUNDS);
    let second = report_news(&ms, arguments, wire, errors);
    let unreadable = is_unreadable(first, second);
    let early = first_of(first, second);
    go_on(
        wire, alloc, ends, early, unreadable, lynx, ms, arguments, out, errors,
    )
}
