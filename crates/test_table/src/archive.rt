//! A table and its keeper, and what a step is to do.

// A table with request port 6969, and what its calls must return.
use archive_memory::MemoryKeeper;
use archive_table::{Keeper, LoadFault, Step, Table};
use std::alloc::Global;
use std::test::Fail;
use test_samples::{EMPTY_LYNX, EMPTY_MS};
use tftp_ends::Received;
use tftp_packet::{Endpoint, Out};
use tws_file::Ruleset;

pub(crate) const REQUEST: u16 = 6969;

#[derive(Drop)]
pub(crate) struct Archive {
    table: Table,
}

impl Archive {
    pub(crate) fn new(alloc: Global) -> Self {
        Archive {
            table: Table::new(alloc, REQUEST),
        }
    }

    // An archive with what the keeper has.
    pub(crate) fn load<K: Keeper>(alloc: Global, keeper: &mut K) -> Result<Self, LoadFault> {
        let table = Table::load(alloc, REQUEST, keeper)?;
        Ok(Archive { table })
    }

    // Handles a datagram at the request port. The spare port must be free.
    pub(crate) fn ask(&mut self, spare: u16, from: Endpoint, bytes: &[u8]) -> Result<Step, Fail> {
        if spare == self.table.request() || self.table.is_live(spare) {
            return Err(Fail::new("a spare port that is not free"));
        }
        Ok(self.table.on_request(spare, from, bytes))
    }

    // Handles a datagram at a transfer's port.
    pub(crate) fn handle<K: Keeper>(
        &mut self,
        keeper: &mut K,
        port: u16,
        from: Endpoint,
        bytes: &[u8],
    ) -> Step {
        self.table.on_datagram(keeper, port, from, bytes)
    }

    // Handles a time-out at a port.
    pub(crate) fn wait(&mut self, port: u16) -> Step {
        self.table.on_timeout(port)
    }

    pub(crate) fn table(&self) -> &Table {
        &self.table
    }

    // Whether this is the text of a collection.
    pub(crate) fn has_text(&self, alloc: Global, ruleset: Ruleset, wanted: &[u8]) -> bool {
        let mut text = Vec::new(alloc);
        self.table.collection(ruleset).write_text(&mut text).is_ok() && text.as_slice() == wanted
    }
}

// What a call returns: what it sends, from which port and to whom; whether it opens; what it takes, and from whom;
// whether it closes.
#[derive(Clone, Copy)]
pub(crate) struct Wanted<'a> {
    pub(crate) out: Option<(u16, Endpoint, &'a [u8])>,
    pub(crate) opened: bool,
    pub(crate) taken: Option<(Endpoint, &'a [u8])>,
    pub(crate) closed: bool,
}

// The same for a step by hand, by what it does: it sends these bytes from this port to the client on this host, opens a
// transfer with them, takes the file that is named last, or closes its transfer.
#[derive(Clone, Copy)]
pub(crate) enum Then<'a> {
    Nothing,
    Sends(u16, u32, &'a [u8]),
    Opens(u16, u32, &'a [u8]),
    Takes(u16, u32, &'a [u8], &'a [u8]),
    Closes(u16, u32, &'a [u8]),
    Ends,
}

fn wanted_of(then: Then<'_>) -> Wanted<'_> {
    let (out, opened, taken, closed) = match then {
        Then::Nothing => (None, false, None, false),
        Then::Sends(port, host, bytes) => (Some((port, client(host), bytes)), false, None, false),
        Then::Opens(port, host, bytes) => (Some((port, client(host), bytes)), true, None, false),
        Then::Takes(port, host, bytes, file) => {
            let to = client(host);
            (Some((port, to, bytes)), false, Some((to, file)), false)
        }
        Then::Closes(port, host, bytes) => (Some((port, client(host), bytes)), false, None, true),
        Then::Ends => (None, false, None, true),
    };
    Wanted {
        out,
        opened,
        taken,
        closed,
    }
}

fn is_out(out: &Option<Out>, wanted: Option<(u16, Endpoint, &[u8])>) -> bool {
    match (out, wanted) {
        (None, None) => true,
        (Some(out), Some((port, to, bytes))) => {
            out.from_port == port && out.to == to && out.dgram.bytes() == bytes
        }
        _ => false,
    }
}

fn has_file(alloc: Global, received: &Received, file: &[u8]) -> bool {
    match received.to_vec(alloc) {
        Ok(bytes) => bytes.as_slice() == file,
        Err(_) => false,
    }
}

// Whether a call returned exactly this.
pub(crate) fn is_step(alloc: Global, step: &Step, wanted: Wanted<'_>) -> bool {
    let is_taken = match (&step.taken, wanted.taken) {
        (None, None) => true,
        (Some(taken), Some((peer, file))) => {
            taken.peer == peer && has_file(alloc, &taken.file, file)
        }
        _ => false,
    };
    is_taken
        && is_out(&step.out, wanted.out)
        && step.opened == wanted.opened
        && step.closed == wanted.closed
}

pub(crate) fn is_wanted(alloc: Global, step: &Step, then: Then<'_>) -> bool {
    is_step(alloc, step, wanted_of(then))
}

// The endpoints of the clients: host 2 is the first.
pub(crate) fn client(host: u32) -> Endpoint {
    Endpoint { host, port: 5000 }
}

// An input: a datagram at the request port with this spare port, one at a transfer's port, or a time-out. The second
// number is the client's host.
#[derive(Clone, Copy)]
pub(crate) enum Input<'a> {
    Ask(u16, u32, &'a [u8]),
    Recv(u16, u32, &'a [u8]),
    Wait(u16),
}

pub(crate) type Row = (Input<'static>, Then<'static>);

fn step<K: Keeper>(archive: &mut Archive, keeper: &mut K, input: Input<'_>) -> Result<Step, Fail> {
    match input {
        Input::Ask(spare, host, bytes) => archive.ask(spare, client(host), bytes),
        Input::Recv(port, host, bytes) => Ok(archive.handle(keeper, port, client(host), bytes)),
        Input::Wait(port) => Ok(archive.wait(port)),
    }
}

// Whether an input's step is the expected one.
pub(crate) fn is_expected<K: Keeper>(
    alloc: Global,
    archive: &mut Archive,
    keeper: &mut K,
    input: Input<'_>,
    then: Then<'_>,
) -> Result<bool, Fail> {
    let step = step(archive, keeper, input)?;
    Ok(is_wanted(alloc, &step, then))
}

// The index of the first of these inputs whose step is not the expected one, if there is one.
pub(crate) fn first_other<K: Keeper>(
    alloc: Global,
    archive: &mut Archive,
    keeper: &mut K,
    rows: &[(Input<'_>, Then<'_>)],
) -> Result<Option<usize>, Fail> {
    for (i, (input, then)) in rows.iter().enumerate() {
        if !is_expected(alloc, archive, keeper, *input, *then)? {
            return Ok(Some(i));
        }
    }
    Ok(None)
}

// Whether the collections' texts are these.
pub(crate) fn has_texts(alloc: Global, archive: &Archive, lynx: &[u8], ms: &[u8]) -> bool {
    archive.has_text(alloc, Ruleset::Lynx, lynx) && archive.has_text(alloc, Ruleset::Ms, ms)
}

// Whether there are this many transfers, and this is the least port of one.
pub(crate) fn is_live(archive: &Archive, count: usize, least: Option<u16>) -> bool {
    archive.table().live() == count && archive.table().next_port(0) == least
}

// What is left after inputs: the collections' texts, how many transfers there are, and the least port of one.
#[derive(Clone, Copy)]
pub(crate) struct Left<'a> {
    pub(crate) lynx: &'a [u8],
    pub(crate) ms: &'a [u8],
    pub(crate) live: usize,
    pub(crate) least: Option<u16>,
}

// What is left of a new archive after inputs without effect.
pub(crate) const NOTHING: Left<'static> = Left {
    lynx: EMPTY_LYNX,
    ms: EMPTY_MS,
    live: 0,
    least: None,
};

// The index of the first of these inputs to an archive whose step is not the expected one; the number of inputs if they
// leave something else.
fn other_at<K: Keeper>(
    alloc: Global,
    archive: &mut Archive,
    keeper: &mut K,
    rows: &[(Input<'_>, Then<'_>)],
    left: Left<'_>,
) -> Result<Option<usize>, Fail> {
    let other = first_other(alloc, archive, keeper, rows)?;
    if other.is_some() {
        return Ok(other);
    }
    let is_left = is_live(archive, left.live, left.least)
        && has_texts(alloc, archive, left.lynx, left.ms);
    Ok(if is_left { None } else { Some(rows.len()) })
}

// The same for an archive that is not needed after them.
pub(crate) fn other_of<K: Keeper>(
    alloc: Global,
    archive: Archive,
    keeper: &mut K,
    rows: &[(Input<'_>, Then<'_>)],
    left: Left<'_>,
) -> Result<Option<usize>, Fail> {
    let mut archive = archive;
    other_at(alloc, &mut archive, keeper, rows, left)
}

// The same for a new archive, whose keeper has nothing yet.
pub(crate) fn other_of_new(
    alloc: Global,
    rows: &[(Input<'_>, Then<'_>)],
    left: Left<'_>,
) -> Result<Option<usize>, Fail> {
    let mut keeper = MemoryKeeper::new(alloc);
    other_of(alloc, Archive::new(alloc), &mut keeper, rows, left)
}
