//! The last blocks that are held, and which of them is next.

ghost use Rattle.std.specs.Prelude.{◌≡◌, ◌==◌, ◌≤◌, ◌⊎◌, [], ◌∷◌, ◌++◌, length, map, max, true, false, None, Some, is_some, IfSome};
ghost use Rattle.std.specs.List.{position};
ghost use Rattle.std.specs.Option.{option_map};
ghost use Rattle.archive_wire.specs.declared.wire.TheConstants.{RECEIVE_SIZE};
ghost use Rattle.archive_pace.specs.Pace.{heard_by, new_pace};
ghost use Rattle.archive_pace.specs.Queue.{block_of, ended, fairer as fairer_of, first_at, first_moment, handed, is_free, moment_of, next_port, sooner as sooner_of, step_of, waiting_of, with_block, without_first};

use crate::held::Held;
use crate::keep::Keep;
use crate::limits::HELD;
use crate::pace::Pace;
use archive_wire::RECEIVE_SIZE;
use std::alloc::Global;
use tftp_packet::Endpoint;
use tws_file::Bytes;

/// A block that may be taken: when its host's last keep ended, and its port.
#[derive(Clone, Copy)]
pub(crate) struct Candidate {
    pub(crate) rank: u64,
    pub(crate) port: u16,
}

/// A step that a last block of this host began.
#[derive(Clone, Copy)]
pub(crate) struct Step {
    pub(crate) host: u32,
    pub(crate) began: u64,
}

/// The last blocks that are held, in the order in which they came, and by what pace they are taken.
#[derive(Drop)]
pub(crate) struct Queue {
    pub(crate) alloc: Global,
    pub(crate) pace: Pace,
    pub(crate) held: Vec<Held>,
    // The step that takes a last block, until it has ended.
    pub(crate) step: Option<Step>,
}

// From when on a block may be taken.
fn moment_in(pace: &Pace, held: &Held) -> u64
    ensures { result ≡ moment_of pace.now (waiting_of held.now) }
{
    pace.moment(held.from.host).max(held.came)
}

// The earlier of two moments, if there are two.
fn sooner(least: Option<u64>, moment: u64) -> Option<u64>
    ensures { result ≡ sooner_of least moment }
{
    match least {
        None => Some(moment),
        Some(least) => Some(least.min(moment)),
    }
}

// The one whose host's last keep is longest ago, the first of those that are equal.
fn fairer(best: Option<Candidate>, next: Candidate) -> Option<Candidate>
    ensures { result ≡ fairer_of best next }
{
    match best {
        None => Some(next),
        Some(best) => {
            if next.rank < best.rank {
                Some(next)
            } else {
                Some(best)
            }
        }
    }
}

// The fairest so far that may be taken, with one more block.
fn with_held(pace: &Pace, now: u64, best: Option<Candidate>, held: &Held) -> Option<Candidate>
    ensures { result ≡ with_block pace.now now best (waiting_of held.now) }
{
    if moment_in(pace, held) <= now {
        fairer(
            best,
            Candidate {
                rank: pace.last_of(held.from.host),
                port: held.port,
            },
        )
    } else {
        best
    }
}

// The place of the block that is held at a port.
fn place_at(held: &[Held], port: u16) -> Option<usize>
    ensures { result ≡ position (λ h. h.port == port) held.now }
{
    held.iter().position(|one| one.port == port)
}

// Takes the block that is held at a port.
fn take_first(held: &mut Vec<Held>, port: u16) -> Option<Held>
    ensures first { option_map waiting_of result ≡ first_at port (map waiting_of held.old.items) }
    ensures left { map waiting_of held.new.items ≡ without_first port (map waiting_of held.old.items) }
{
    let Some(place) = place_at(held.as_slice(), port) else {
        return None;
    };
    Some(held.remove(place))
}

// Whether the block that is held at a port may be taken now.
fn is_due_at(pace: &Pace, held: &[Held], port: u16, now: u64) -> bool
    ensures { result ≡ is_free port now pace.now (map waiting_of held.now) }
{
    for one in held {
        if one.port == port {
            return moment_in(pace, one) <= now;
        }
    }
    false
}

impl Queue {
    /// Holds nothing.
    pub(crate) fn new(alloc: Global) -> Self
        ensures pace { result.pace ≡ new_pace }
        ensures held { result.held.items ≡ [] }
        ensures step { result.step ≡ None }
    {
        Queue {
            alloc,
            pace: Pace::new(),
            held: Vec::new(alloc),
            step: None,
        }
    }

    /// A datagram of this host has come.
    pub(crate) fn hear(&mut self, host: u32, now: u64)
        ensures pace { self.new.pace ≡ heard_by host now self.old.pace }
        ensures held { self.new.held ≡ self.old.held }
        ensures step { self.new.step ≡ self.old.step }
    {
        self.pace.hear(host, now);
    }

    /// Ends the step that took a last block, if there was one.
    pub(crate) fn end_step(&mut self, now: u64)
        ensures pace { self.new.pace ≡ ended now self.old.step self.old.pace }
        ensures held { self.new.held ≡ self.old.held }
        ensures step { self.new.step ≡ None }
    {
        if let Some(step) = self.step {
            self.pace.note(Keep {
                host: step.host,
                ended: now,
                took: now.saturating_sub(step.began),
            });
        }
        self.step = None;
    }

    /// Holds a block, unless one is held at its port, or `HELD` are held. Out of memory it is lost.
    pub(crate) fn hold(&mut self, port: u16, from: Endpoint, came: u64, bytes: &[u8])
        requires short { length bytes.now ≤ RECEIVE_SIZE }
        ensures held { (map waiting_of self.new.held.items ≡ map waiting_of self.old.held.items ++ record { port = port; from = from; came = came; bytes = bytes.now } ∷ []) ⊎ (map waiting_of self.new.held.items ≡ map waiting_of self.old.held.items) }
        ensures pace { self.new.pace ≡ self.old.pace }
        ensures step { self.new.step ≡ self.old.step }
    {
        if self.held.len() >= HELD || place_at(self.held.as_slice(), port).is_some() {
            return;
        }
        let Ok(copy) = Vec::from_slice(self.alloc, bytes) else {
            return;
        };
        let bytes = Bytes::of(copy);
        let _ = self.held.push(Held {
            port,
            from,
            came,
            bytes,
        });
    }

    /// Lets go of the block that is held at a port, if there is one.
    pub(crate) fn forget(&mut self, port: u16)
        ensures held { map waiting_of self.new.held.items ≡ without_first port (map waiting_of self.old.held.items) }
        ensures pace { self.new.pace ≡ self.old.pace }
        ensures step { self.new.step ≡ self.old.step }
    {
        let _ = take_first(&mut self.held, port);
    }

    /// Takes the block that is held at a port, if it may be taken now: a step begins.
    pub(crate) fn take(
        &mut self,
        port: u16,
        now: u64,
        buffer: &mut [u8; RECEIVE_SIZE],
    ) -> Option<(usize, Endpoint)>
        ensures none { is_free port now self.old.pace (map waiting_of self.old.held.items) ≡ false → (result ≡ None) × (self.new ≡ self.old) }
        ensures block { is_free port now self.old.pace (map waiting_of self.old.held.items) ≡ true → handed result buffer.new ≡ block_of (first_at port (map waiting_of self.old.held.items)) }
        ensures left { is_some result ≡ true → map waiting_of self.new.held.items ≡ without_first port (map waiting_of self.old.held.items) }
        ensures step { is_some result ≡ true → self.new.step ≡ step_of now (first_at port (map waiting_of self.old.held.items)) }
        ensures pace { self.new.pace ≡ self.old.pace }
        ensures count { IfSome result (λ g. g.0 ≤ RECEIVE_SIZE) }
    {
        if !is_due_at(&self.pace, self.held.as_slice(), port, now) {
            return None;
        }
        let Some(Held { from, bytes, .. }) = take_first(&mut self.held, port) else {
            return None;
        };
        let count = bytes.len();
        buffer[..count].copy_from_slice(bytes.as_slice());
        self.step = Some(Step {
            host: from.host,
            began: now,
        });
        Some((count, from))
    }

    /// The port whose block is next, if one may be taken.
    pub(crate) fn next(&self, now: u64) -> Option<u16>
        ensures { result ≡ next_port now self.now.pace (map waiting_of self.now.held.items) }
    {
        let mut best = None;
        for held in self.held.as_slice() {
            best = with_held(&self.pace, now, best, held);
        }
        match best {
            Some(best) => Some(best.port),
            None => None,
        }
    }

    /// From when on one may be taken, if one is held.
    pub(crate) fn first(&self) -> Option<u64>
        ensures { result ≡ first_moment self.now.pace (map waiting_of self.now.held.items) }
    {
        let mut least = None;
        for held in self.held.as_slice() {
            least = sooner(least, moment_in(&self.pace, held));
        }
        least
    }
}
