//! Drawn schedules, at both servers.

// A thousand runs of the server, each of eighty inputs, every fiftieth of two hundred, that may fit or not, compared
// step by step with the plain server: what is sent, opened, taken and closed, what the keeper is given, which ports are
// live, and the text of both collections. Now and then the server starts again with what its keeper has: no port is
// live then, and the collections are the same.
use crate::archive::{Archive, REQUEST, Wanted, is_step};
use crate::drawing::{Input, draw};
use crate::plain::{Plain, Said};
use archive_memory::MemoryKeeper;
use archive_table::Step;
use std::alloc::{AllocError, Global};
use std::test::Fail;
use test_samples::Draws;
use tws_file::Ruleset;

// How often each thing happened in all runs.
#[derive(Clone, Copy)]
struct Counts {
    opened: u32,
    taken: u32,
    closed: u32,
    strays: u32,
    kept: u32,
    unkept: u32,
    busy: u32,
    restarts: u32,
}

// A server with its keeper, and the plain server.
#[derive(Drop)]
struct Both {
    archive: Archive,
    keeper: MemoryKeeper,
    plain: Plain,
}

fn is_said(alloc: Global, step: &Step, said: &Said) -> bool {
    let out = match &said.out {
        Some((port, to, bytes)) => Some((*port, *to, bytes.as_slice())),
        None => None,
    };
    let taken = match &said.taken {
        Some((peer, file)) => Some((*peer, file.as_slice())),
        None => None,
    };
    let wanted = Wanted {
        out,
        opened: said.opened,
        taken,
        closed: said.closed,
    };
    is_step(alloc, step, wanted)
}

// Whether a port is live in both, or in neither.
fn is_same_at(archive: &Archive, plain: &Plain, port: u16) -> bool {
    archive.table().is_live(port) == plain.place(port).is_some()
}

// Whether the same ports are live.
fn has_ports(archive: &Archive, plain: &Plain) -> bool {
    let table = archive.table();
    if !is_same_at(archive, plain, REQUEST) || !is_same_at(archive, plain, 0) {
        return false;
    }
    for port in 4000..4008 {
        if !is_same_at(archive, plain, port) {
            return false;
        }
    }
    let mut after = 0;
    for _ in 0..plain.live.len() {
        let next = plain.next_port(after);
        if table.next_port(after) != next {
            return false;
        }
        after = next.unwrap_or(after);
    }
    table.next_port(after).is_none() && table.live() == plain.live.len()
}

fn has_text(
    alloc: Global,
    archive: &Archive,
    plain: &Plain,
    ruleset: Ruleset,
) -> Result<bool, Fail> {
    let text = plain.text(ruleset)?;
    Ok(archive.has_text(alloc, ruleset, &text))
}

fn has_texts(alloc: Global, archive: &Archive, plain: &Plain) -> Result<bool, Fail> {
    Ok(
        has_text(alloc, archive, plain, Ruleset::Lynx)?
            && has_text(alloc, archive, plain, Ruleset::Ms)?,
    )
}

fn is_error(said: &Said, error: &[u8]) -> bool {
    match &said.out {
        Some((_port, _to, bytes)) => bytes.as_slice() == error,
        None => false,
    }
}

impl Counts {
    fn count(&mut self, said: &Said) {
        self.opened = self.opened.wrapping_add(u32::from(said.opened));
        self.taken = self.taken.wrapping_add(u32::from(said.taken.is_some()));
        self.closed = self.closed.wrapping_add(u32::from(said.closed));
        let strays = u32::from(is_error(said, b"\0\x05\0\x05unknown transfer\0"));
        self.strays = self.strays.wrapping_add(strays);
        let kept = u32::from(said.kept.is_some() && said.taken.is_some());
        self.kept = self.kept.wrapping_add(kept);
        let unkept = u32::from(is_error(said, b"\0\x05\0\0not kept\0"));
        self.unkept = self.unkept.wrapping_add(unkept);
        let busy = u32::from(is_error(said, b"\0\x05\0\0server busy\0"));
        self.busy = self.busy.wrapping_add(busy);
    }

    // What has not happened often enough in a thousand runs.
    fn too_few(&self) -> Option<&'static str> {
        let rows = [
            ("opened", self.opened, 5000),
            ("taken", self.taken, 1000),
            ("closed", self.closed, 3000),
            ("strays", self.strays, 500),
            ("kept", self.kept, 500),
            ("unkept", self.unkept, 100),
            ("busy", self.busy, 100),
            ("restarts", self.restarts, 1000),
        ];
        for (name, count, least) in rows {
            if count <= least {
                return Some(name);
            }
        }
        None
    }
}

// What the plain server does at an input.
fn plain_step(plain: &mut Plain, input: &Input, keeps: bool) -> Result<Said, AllocError> {
    match input {
        Input::Ask { spare, from, bytes } => plain.on_request(*spare, *from, bytes),
        Input::Recv { port, from, bytes } => plain.on_datagram(*port, *from, bytes, keeps),
        Input::Wait { port } => plain.on_timeout(*port),
    }
}

// What the server does at an input.
fn step(archive: &mut Archive, keeper: &mut MemoryKeeper, input: &Input) -> Result<Step, Fail> {
    match input {
        Input::Ask { spare, from, bytes } => archive.ask(*spare, *from, bytes),
        Input::Recv { port, from, bytes } => Ok(archive.handle(keeper, *port, *from, bytes)),
        Input::Wait { port } => Ok(archive.wait(*port)),
    }
}

// Whether after its first `before` texts the keeper was given what the plain server keeps, and nothing else.
fn is_given(keeper: &MemoryKeeper, before: usize, said: &Said) -> bool {
    match (keeper.kept().get(before..), &said.kept) {
        (Some([]), None) => true,
        (Some([one]), Some(kept)) => {
            one.ruleset == kept.ruleset
                && one.ok == kept.keeps
                && one.text.as_slice() == kept.text.as_slice()
        }
        _ => false,
    }
}

// What two servers differ in, if they do: the ports or the collections.
fn difference(alloc: Global, both: &Both) -> Result<Option<&'static str>, Fail> {
    if !has_ports(&both.archive, &both.plain) {
        return Ok(Some("other ports are live"));
    }
    if !has_texts(alloc, &both.archive, &both.plain)? {
        return Ok(Some("another collection"));
    }
    Ok(None)
}

// The same at an input, at which the plain server has done this: also the step, or what the keeper is given.
fn difference_at(
    alloc: Global,
    both: &mut Both,
    input: &Input,
    said: &Said,
) -> Result<Option<&'static str>, Fail> {
    let before = both.keeper.kept().len();
    let step = step(&mut both.archive, &mut both.keeper, input)?;
    difference_after(alloc, both, before, &step, said)
}

// The same after that step, before which the keeper was given `before` texts.
fn difference_after(
    alloc: Global,
    both: &Both,
    before: usize,
    step: &Step,
    said: &Said,
) -> Result<Option<&'static str>, Fail> {
    if !is_said(alloc, step, said) {
        return Ok(Some("the server does something else"));
    }
    if !is_given(&both.keeper, before, said) {
        return Ok(Some("the keeper is given something else"));
    }
    difference(alloc, both)
}

// Counts what the plain server has done at an input, at which the servers must agree.
fn judge(
    alloc: Global,
    both: &mut Both,
    counts: &mut Counts,
    input: &Input,
    said: &Said,
) -> Result<(), Fail> {
    counts.count(said);
    match difference_at(alloc, both, input, said)? {
        Some(what) => Err(Fail::new(what)),
        None => Ok(()),
    }
}

// Gives an input to both servers, which must agree on the step, what is kept, the ports and the collections.
fn agree(
    alloc: Global,
    both: &mut Both,
    counts: &mut Counts,
    input: &Input,
    keeps: bool,
) -> Result<(), Fail> {
    both.keeper.fail_at(if keeps { 0 } else { 1 });
    let said = plain_step(&mut both.plain, input, keeps)?;
    judge(alloc, both, counts, input, &said)
}

// Starts the server again with what its keeper has. It must agree with the plain server without transfers.
fn restart(alloc: Global, both: &mut Both) -> Result<(), Fail> {
    both.keeper.fail_at(0);
    both.plain.live = Vec::new(alloc);
    match Archive::load(alloc, &mut both.keeper) {
        Ok(archive) => both.archive = archive,
        Err(_fault) => return Err(Fail::new("not loaded")),
    }
    match difference(alloc, both)? {
        Some(what) => Err(Fail::new(what)),
        None => Ok(()),
    }
}

// Draws an input for both, and now and then a restart before it, but none in a crowded run.
fn turn(
    alloc: Global,
    draws: &mut Draws,
    both: &mut Both,
    counts: &mut Counts,
    number: u16,
    crowded: bool,
) -> Result<(), Fail> {
    if !crowded && draws.once_in(40) {
        restart(alloc, both)?;
        counts.restarts = counts.restarts.wrapping_add(1);
    }
    let input = draw(alloc, draws, &both.plain, number, crowded)?;
    let keeps = !draws.once_in(4);
    agree(alloc, both, counts, &input, keeps)
}

fn run_both(
    alloc: Global,
    draws: &mut Draws,
    both: &mut Both,
    counts: &mut Counts,
    number: u16,
) -> Result<(), Fail> {
    let crowded = number % 50 == 0;
    let inputs = if crowded { 200 } else { 80 };
    for _ in 0..inputs {
        turn(alloc, draws, both, counts, number, crowded)?;
    }
    Ok(())
}

// The same for two new servers.
fn run(alloc: Global, draws: &mut Draws, counts: &mut Counts, number: u16) -> Result<(), Fail> {
    let mut both = Both {
        archive: Archive::new(alloc),
        keeper: MemoryKeeper::new(alloc),
        plain: Plain::new(alloc),
    };
    run_both(alloc, draws, &mut both, counts, number)
}

// What happened in a thousand runs, in which both servers agreed.
fn count_runs(alloc: Global, draws: &mut Draws) -> Result<Counts, Fail> {
    let mut counts = Counts {
        opened: 0,
        taken: 0,
        closed: 0,
        strays: 0,
        kept: 0,
        unkept: 0,
        busy: 0,
        restarts: 0,
    };
    for number in 0..1000 {
        run(alloc, draws, &mut counts, number)?;
    }
    Ok(counts)
}

fn count_new_runs(alloc: Global) -> Result<Counts, Fail> {
    count_runs(alloc, &mut Draws::new(14))
}

#[test]
fn schedules_of_the_server(rt: HostRuntime) -> Result<(), Fail> {
    assert_eq!(rt; count_new_runs(rt.alloc())?.too_few(), None);
    Ok(())
}
