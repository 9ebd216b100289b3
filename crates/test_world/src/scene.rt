//! Builds the events of a run.

// Lists of events in abbreviated form, with what they leave and what their keeper is given.
use archive_memory::{Kept, MemoryKeeper};
use archive_world::{
    Asked, Datagram, Event, Op, OpKind, Opening, Outcome, TakenFile, WorldFault, replay,
};
use std::alloc::Global;
use std::test::Fail;
use test_samples::{EMPTY_LYNX, EMPTY_MS, HUNDRED};
use tftp_packet::Endpoint;
use tws_file::{Bytes, Ruleset};

// An event in abbreviated form.
#[derive(Clone, Copy)]
pub(crate) enum Act<'a> {
    Put(Endpoint, &'a [u8]),
    // The datagram at this place arrives at a client or at a transfer.
    Deliver(usize),
    // The datagram at this place arrives at the request port, with this spare port.
    Ask(usize, u16),
    ClientWaits(Endpoint),
    PortWaits(u16),
    Restart,
    // The datagram at this place completes a file, which the restart finds or not.
    UnknownKeep(usize, bool),
}

fn event_of(alloc: Global, act: Act<'_>) -> Result<Event, Fail> {
    Ok(match act {
        Act::Put(client, file) => {
            let kind = OpKind::Put(Bytes::of(Vec::from_slice(alloc, file)?));
            Event::Begin(Op { client, kind })
        }
        Act::Deliver(index) => Event::Deliver { index, spare: 0 },
        Act::Ask(index, spare) => Event::Deliver { index, spare },
        Act::ClientWaits(client) => Event::ClientTimeout { client },
        Act::PortWaits(port) => Event::ServerTimeout { port },
        Act::Restart => Event::Restart,
        Act::UnknownKeep(index, found) => Event::UnknownKeep { index, found },
    })
}

pub(crate) fn events_of(alloc: Global, acts: &[Act<'_>]) -> Result<Vec<Event>, Fail> {
    let mut events = Vec::new(alloc);
    for act in acts {
        events.push(event_of(alloc, *act)?)?;
    }
    Ok(events)
}

// Why these events have no run with this keeper, if they have none.
pub(crate) fn fault_by(
    alloc: Global,
    keeper: &mut MemoryKeeper,
    acts: &[Act<'_>],
) -> Result<Option<WorldFault>, Fail> {
    let events = events_of(alloc, acts)?;
    match replay(alloc, keeper, &events) {
        Ok(_outcome) => Ok(None),
        Err(fault) => Ok(Some(fault)),
    }
}

// The fault of these events if this call of the keeper fails, and whether the keeper was given the file of 100 ticks.
pub(crate) fn failing(
    alloc: Global,
    call: u64,
    acts: &[Act<'_>],
) -> Result<(Option<WorldFault>, bool), Fail> {
    let mut keeper = MemoryKeeper::new(alloc);
    keeper.fail_at(call);
    let fault = fault_by(alloc, &mut keeper, acts)?;
    Ok((fault, was_given(&keeper, &[(HUNDRED, true)])))
}

// The call of a keeper that fails, if none does.
pub(crate) const NO_CALL: u64 = 0;

// What a run leaves: a file with its peer; those whose peers were told that they were not kept; the clients that count theirs as sent; an opening's peer, port and count of files
// taken; the text of the Lynx collection; a datagram's source, target and bytes; the texts that the keeper was given for it,
// and whether it kept each.
#[derive(Clone, Copy)]
pub(crate) struct Wanted<'a> {
    pub(crate) taken: &'a [(Endpoint, &'a [u8])],
    pub(crate) recovered: &'a [(Endpoint, &'a [u8])],
    pub(crate) sent: &'a [Endpoint],
    pub(crate) opened: &'a [(Endpoint, u16, usize)],
    pub(crate) lynx: &'a [u8],
    pub(crate) datagrams: &'a [(Endpoint, Endpoint, &'a [u8])],
    pub(crate) given: &'a [(&'a [u8], bool)],
}

// What no event at all leaves.
pub(crate) const NOTHING: Wanted<'static> = Wanted {
    taken: &[],
    recovered: &[],
    sent: &[],
    opened: &[],
    lynx: EMPTY_LYNX,
    datagrams: &[],
    given: &[],
};

fn is_taken(one: &TakenFile, peer: Endpoint, file: &[u8]) -> bool {
    let is_peer = one.peer == peer;
    let is_file = one.file.as_slice() == file;
    is_peer && is_file
}

fn are_taken(taken: &[TakenFile], wanted: &[(Endpoint, &[u8])]) -> bool {
    for (one, (peer, file)) in taken.iter().zip(wanted) {
        if !is_taken(one, *peer, file) {
            return false;
        }
    }
    taken.len() == wanted.len()
}

fn is_opened(one: &Opening, peer: Endpoint, port: u16, taken: usize) -> bool {
    let (is_peer, is_write) = (one.peer == peer, one.asked == Asked::Write);
    is_peer && is_write && one.port == port && one.taken == taken
}

fn are_opened(opened: &[Opening], wanted: &[(Endpoint, u16, usize)]) -> bool {
    for (one, (peer, port, taken)) in opened.iter().zip(wanted) {
        if !is_opened(one, *peer, *port, *taken) {
            return false;
        }
    }
    opened.len() == wanted.len()
}

fn is_datagram(one: &Datagram, from: Endpoint, to: Endpoint, bytes: &[u8]) -> bool {
    let (is_from, is_to) = (one.from == from, one.to == to);
    let has_bytes = one.bytes.as_slice() == bytes;
    is_from && is_to && has_bytes
}

fn are_datagrams(datagrams: &[Datagram], wanted: &[(Endpoint, Endpoint, &[u8])]) -> bool {
    for (one, (from, to, bytes)) in datagrams.iter().zip(wanted) {
        if !is_datagram(one, *from, *to, bytes) {
            return false;
        }
    }
    datagrams.len() == wanted.len()
}

// Whether this text was given for Lynx, and was kept or not.
fn is_lynx(one: &Kept, text: &[u8], ok: bool) -> bool {
    let is_lynx = one.ruleset == Ruleset::Lynx;
    let has_text = one.text.as_slice() == text;
    is_lynx && has_text && one.ok == ok
}

// Whether a keeper was given exactly these texts for Lynx, and kept each or not.
pub(crate) fn was_given(keeper: &MemoryKeeper, wanted: &[(&[u8], bool)]) -> bool {
    let kept = keeper.kept();
    for (one, (text, ok)) in kept.iter().zip(wanted) {
        if !is_lynx(one, text, *ok) {
            return false;
        }
    }
    kept.len() == wanted.len()
}

// The part of an outcome that is not as expected, if there is one.
pub(crate) fn other_part(outcome: &Outcome, wanted: &Wanted<'_>) -> Option<&'static str> {
    let parts = [
        ("taken", are_taken(outcome.taken.as_slice(), wanted.taken)),
        (
            "recovered",
            are_taken(outcome.recovered.as_slice(), wanted.recovered),
        ),
        ("sent", outcome.sent.as_slice() == wanted.sent),
        (
            "opened",
            are_opened(outcome.opened.as_slice(), wanted.opened),
        ),
        ("lynx", outcome.lynx.as_slice() == wanted.lynx),
        ("ms", outcome.ms.as_slice() == EMPTY_MS.as_slice()),
        (
            "datagrams",
            are_datagrams(outcome.datagrams.as_slice(), wanted.datagrams),
        ),
        ("got", outcome.got.is_empty()),
    ];
    for (name, is_right) in parts {
        if !is_right {
            return Some(name);
        }
    }
    None
}

// The part of what these events leave with this keeper that is not as expected, if there is one.
fn other_with(
    alloc: Global,
    keeper: &mut MemoryKeeper,
    acts: &[Act<'_>],
    wanted: &Wanted<'_>,
) -> Result<Option<&'static str>, Fail> {
    let events = events_of(alloc, acts)?;
    let other = other_part(&replay(alloc, keeper, &events)?, wanted);
    Ok(if was_given(keeper, wanted.given) {
        other
    } else {
        Some("given")
    })
}

// The same with a new keeper, of which this call fails.
pub(crate) fn other_after(
    alloc: Global,
    acts: &[Act<'_>],
    fails: u64,
    wanted: &Wanted<'_>,
) -> Result<Option<&'static str>, Fail> {
    let mut keeper = MemoryKeeper::new(alloc);
    keeper.fail_at(fails);
    other_with(alloc, &mut keeper, acts, wanted)
}
