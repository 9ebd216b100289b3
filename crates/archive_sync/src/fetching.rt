//! Fetching collections into memory.

ghost use Rattle.std.specs.Prelude.{◌≡◌, IfOk, IfErr};
ghost use Rattle.archive_sync.specs.Fetching.{FetchesText, TextFails, FetchesNews, FetchesNewsOf, NewsOfFails, SyncFails, in_memory};

use crate::news::News;
use crate::sync_fault::SyncFault;
use archive_runs::{RunFault, get_in_rounds};
use archive_wire::ReadyWire;
use std::alloc::Allocator;
use tftp_packet::Endpoint;
use tws_file::Ruleset;

// The fault of a fetch into memory: a text that is not written is out of memory.
fn in_memory(fault: RunFault) -> RunFault
    ensures { result ≡ in_memory fault }
{
    match fault {
        RunFault::Write | RunFault::Memory => RunFault::Memory,
        RunFault::Socket => RunFault::Socket,
        RunFault::Transfer(why) => RunFault::Transfer(why),
    }
}

/// Fetches the text of an archive's collection of a ruleset, and dallies. `server` is the archive's host and request port;
/// the get and the dally make at most `rounds` rounds each.
///
/// # Errors
///
/// Those of `get_in_rounds` of `archive_runs`; what it cannot write is `Memory`.
pub fn fetch_text<A: Allocator + Copy, W: ReadyWire>(
    alloc: A,
    wire: &mut W,
    server: Endpoint,
    ruleset: Ruleset,
    rounds: u64,
) -> Result<Vec<u8, A>, RunFault>
    ensures fetched { IfOk result (λ text. FetchesText server (record { rules = «ruleset»; rounds = rounds }) text.items (W.calls wire.old) (W.calls wire.new)) }
    ensures fails { IfErr result (λ fault. TextFails server (record { rules = «ruleset»; rounds = rounds }) fault (W.calls wire.old) (W.calls wire.new)) }
{
    let mut text = Vec::new(alloc);
    match get_in_rounds(alloc, wire, server, ruleset, rounds, &mut text) {
        Ok((_, mut run)) => {
            run.dally(wire, rounds);
            Ok(text)
        }
        Err(fault) => Err(in_memory(fault)),
    }
}

/// Fetches the collections of a ruleset of two archives, `from` first, and compares them.
///
/// # Errors
///
/// `From` or `To` if that one's was not fetched: nothing is asked of `to` if `from` failed. `News` if they cannot be
/// compared.
pub fn fetch_news<A: Allocator + Copy, W: ReadyWire>(
    alloc: A,
    wire: &mut W,
    from: Endpoint,
    to: Endpoint,
    ruleset: Ruleset,
    rounds: u64,
) -> Result<News<A>, SyncFault>
    ensures fetched { IfOk result (λ told. FetchesNews from to (record { rules = «ruleset»; rounds = rounds }) told (W.calls wire.old) (W.calls wire.new)) }
    ensures fails { IfErr result (λ fault. SyncFails from to (record { rules = «ruleset»; rounds = rounds }) fault (W.calls wire.old) (W.calls wire.new)) }
{
    let first = match fetch_text(alloc, wire, from, ruleset, rounds) {
        Ok(first) => first,
        Err(fault) => return Err(SyncFault::From(fault)),
    };
    let second = match fetch_text(alloc, wire, to, ruleset, rounds) {
        Ok(second) => second,
        Err(fault) => return Err(SyncFault::To(fault)),
    };
    match News::between(alloc, &first, &second) {
        Ok(news) => Ok(news),
        Err(fault) => Err(SyncFault::News(fault)),
    }
}

/// Fetches the collection of a ruleset of an archive, `to`, and compares a text of mine with it.
///
/// # Errors
///
/// `To` if it was not fetched, and `News` if the two cannot be compared, of which the text is the first; never `From`.
pub fn fetch_news_of<A: Allocator + Copy, W: ReadyWire>(
    alloc: A,
    wire: &mut W,
    text: &[u8],
    to: Endpoint,
    ruleset: Ruleset,
    rounds: u64,
) -> Result<News<A>, SyncFault>
    ensures fetched { IfOk result (λ told. FetchesNewsOf text.now to (record { rules = «ruleset»; rounds = rounds }) told (W.calls wire.old) (W.calls wire.new)) }
    ensures fails { IfErr result (λ fault. NewsOfFails text.now to (record { rules = «ruleset»; rounds = rounds }) fault (W.calls wire.old) (W.calls wire.new)) }
{
    let theirs = match fetch_text(alloc, wire, to, ruleset, rounds) {
        Ok(theirs) => theirs,
        Err(fault) => return Err(SyncFault::To(fault)),
    };
    match News::between(alloc, text, &theirs) {
        Ok(news) => Ok(news),
        Err(fault) => Err(SyncFault::News(fault)),
    }
}
