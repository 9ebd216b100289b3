//! Who has the places, and which transfer gives way when they run out.

ghost use Rattle.std.specs.Prelude.{◌≡◌, ◌<◌};
ghost use Rattle.archive_server.specs.Places.{counts_for, count_from, has_room, most_entries, has_memory as memory_left, has_place as place_left, has_lived, may_go as can_go, rank as rank_of, slower_of, is_full, crowded_host, is_of, is_crowded, with_candidate, slowest, slowest_if, port_of, victim};

use crate::change::Change;
use crate::limits::{PATIENCE, SENT_ENTRIES};
use crate::mode::Mode;
use crate::timer::Timer;
use crate::timers::Timers;
use archive_table::{LIVE, Table};
use archive_wire::TIMEOUT;
use std::alloc::Allocator;
use tftp_packet::Endpoint;
use tws_file::Ruleset;

/// A transfer that may give way. The lower its rank, the slower it is.
#[derive(Clone, Copy)]
pub(crate) struct Candidate {
    /// How many blocks it has moved in a thousand seconds.
    pub(crate) rank: u64,
    /// Its port.
    pub(crate) port: u16,
}

// How many solutions the larger collection has.
fn most_entries<A: Allocator + Copy>(table: &Table<A>) -> usize
    ensures { result ≡ most_entries table.now }
{
    let lynx = table.collection(Ruleset::Lynx).len();
    lynx.max(table.collection(Ruleset::Ms).len())
}

/// Whether one more transfer may have a list of the larger collection.
pub(crate) fn has_memory<A: Allocator + Copy>(table: &Table<A>) -> bool
    ensures { result ≡ memory_left table.now }
{
    table.live() < SENT_ENTRIES / most_entries(table).max(1)
}

/// Whether there is a place for one more transfer.
pub(crate) fn has_place<A: Allocator + Copy>(table: &Table<A>) -> bool
    ensures { result ≡ place_left table.now }
{
    table.live() < LIVE && has_memory(table)
}

// For how many seconds a transfer has been live, once that is one.
fn has_lived(now: u64, timer: Timer) -> u64
    ensures lived { result ≡ has_lived now timer }
    ensures positive { 0 < result }
{
    now.saturating_sub(timer.first_due) / TIMEOUT + 1
}

// Whether a transfer may give way: it moves at most a block a second, or has had its time.
fn may_go(now: u64, timer: Timer) -> bool
    ensures { result ≡ can_go now timer }
{
    let lived = has_lived(now, timer);
    timer.first_due <= now && (u64::from(timer.reached) <= lived || PATIENCE <= lived)
}

// How many blocks a transfer has moved in a thousand seconds.
fn rank(now: u64, timer: Timer) -> u64
    ensures { result ≡ rank_of now timer }
{
    u64::from(timer.reached) * 1000 / has_lived(now, timer)
}

// The slower of two transfers, if there are two; the first if they are equally slow.
fn slower_of(least: Option<Candidate>, next: Candidate) -> Option<Candidate>
    ensures { result ≡ slower_of least next }
{
    match least {
        None => Some(next),
        Some(least) => {
            if next.rank < least.rank {
                Some(next)
            } else {
                Some(least)
            }
        }
    }
}

// Whether the transfer at a port is with a host, and does not dally.
fn counts_for<A: Allocator + Copy>(host: u32, table: &Table<A>, port: u16) -> bool
    ensures { result ≡ counts_for host table.now port }
{
    match table.peer(port) {
        None => false,
        Some(peer) => peer.host == host && !table.is_dallying(port),
    }
}

// Whether an endpoint is of this host, if there are both.
fn is_of(host: Option<u32>, peer: Option<Endpoint>) -> bool
    ensures { result ≡ is_of host peer }
{
    match (host, peer) {
        (None, _) => false,
        (Some(_), None) => false,
        (Some(host), Some(peer)) => peer.host == host,
    }
}

// Whether a transfer has a place that is wanted: any if all are taken, one of this host if it has no place left.
fn is_crowded<A: Allocator + Copy>(
    full: bool,
    host: Option<u32>,
    timer: Timer,
    table: &Table<A>,
) -> bool
    ensures { result ≡ is_crowded full host table.now timer }
{
    !table.is_dallying(timer.port) && (full || is_of(host, table.peer(timer.port)))
}

// The slowest transfer so far that may give way, with one more timer.
fn with_candidate<A: Allocator + Copy>(
    full: bool,
    host: Option<u32>,
    now: u64,
    table: &Table<A>,
    least: Option<Candidate>,
    timer: Timer,
) -> Option<Candidate>
    ensures { result ≡ with_candidate full host now table.now least timer }
{
    if may_go(now, timer) && is_crowded(full, host, timer, table) {
        slower_of(
            least,
            Candidate {
                rank: rank(now, timer),
                port: timer.port,
            },
        )
    } else {
        least
    }
}

// The port of a candidate.
fn port_of(candidate: Option<Candidate>) -> Option<u16>
    ensures { result ≡ port_of candidate }
{
    match candidate {
        Some(candidate) => Some(candidate.port),
        None => None,
    }
}

impl Timers {
    // How many transfers with this host do not dally.
    fn count_from<A: Allocator + Copy>(&self, host: u32, table: &Table<A>) -> usize
        ensures { result ≡ count_from host self.now table.now }
    {
        let timers = self.as_slice();
        timers
            .iter()
            .filter(|timer| counts_for(host, table, timer.port))
            .count()
    }

    /// Whether a host may have one more transfer. This host's own clients are not counted.
    pub(crate) fn has_room<A: Allocator + Copy>(
        &self,
        host: u32,
        per_host: usize,
        table: &Table<A>,
    ) -> bool
        ensures { result ≡ has_room host per_host self.now table.now }
    {
        host >> 24 == 127 || self.count_from(host, table) < per_host
    }

    // Whether all places are taken, and no transfer dallies.
    fn is_full<A: Allocator + Copy>(&self, table: &Table<A>) -> bool
        ensures { result ≡ is_full self.now table.now }
    {
        let timers = self.as_slice();
        !has_place(table)
            && timers
                .iter()
                .filter(|timer| table.is_dallying(timer.port))
                .count()
                == 0
    }

    // The host whose datagram was just refused, if it has no place left.
    fn crowded_host<A: Allocator + Copy>(
        &self,
        change: Change,
        per_host: usize,
        table: &Table<A>,
    ) -> Option<u32>
        ensures { result ≡ crowded_host change per_host self.now table.now }
    {
        match change {
            Change::Dropped(host) => {
                if self.has_room(host, per_host, table) {
                    None
                } else {
                    Some(host)
                }
            }
            Change::Quiet => None,
            Change::Nothing => None,
            Change::Opened(_) => None,
            Change::Sent(_, _) => None,
            Change::Answered(_) => None,
            Change::Closed(_) => None,
        }
    }

    // The slowest transfer that may give way.
    fn slowest<A: Allocator + Copy>(
        &self,
        full: bool,
        host: Option<u32>,
        now: u64,
        table: &Table<A>,
    ) -> Option<Candidate>
        ensures { result ≡ slowest full host now self.now table.now }
    {
        let mut least = None;
        for timer in self.as_slice() {
            least = with_candidate(full, host, now, table, least, *timer);
        }
        least
    }

    // The same if a place is wanted.
    fn slowest_if<A: Allocator + Copy>(
        &self,
        full: bool,
        host: Option<u32>,
        now: u64,
        table: &Table<A>,
    ) -> Option<Candidate>
        ensures { result ≡ slowest_if full host now self.now table.now }
    {
        if full || host.is_some() {
            self.slowest(full, host, now, table)
        } else {
            None
        }
    }

    /// The port that gives way since all places are taken, or since a host has none left and asks for one more.
    pub(crate) fn victim<A: Allocator + Copy>(
        &self,
        mode: Mode,
        change: Change,
        table: &Table<A>,
    ) -> Option<u16>
        ensures { result ≡ victim mode change self.now table.now }
    {
        match mode {
            Mode::Turn => None,
            Mode::Round { now, policies, .. } => {
                let full = self.is_full(table);
                let host = self.crowded_host(change, policies.per_host, table);
                port_of(self.slowest_if(full, host, now, table))
            }
        }
    }
}
