//! When the last block of a file may be taken.

ghost use Rattle.std.specs.Prelude.{◌≡◌, ◌<◌, length, IfSome, IfNone};
ghost use Rattle.std.specs.List.{find, remove};
ghost use Rattle.archive_pace.specs.Pace.{allows_at, heard_by, keep_of, moment, new_pace, noted, other_heard, last_of, rest_of, without};

use crate::keep::Keep;
use crate::limits::{HOSTS, PRESENT};
use arrayvec::ArrayVec;
use std::marker::Model;

/// When the last block of a file may be taken: after a keep, not before as much time has passed as it took, and for the same
/// host four times as much; but at once while no other host is present. Times are in microseconds.
#[derive(Drop)]
pub struct Pace {
    // The last keep of all.
    last: Keep,
    // The last keep of each host, the oldest first.
    keeps: ArrayVec<Keep, HOSTS>,
    // The host that was heard last, and when.
    heard: u32,
    heard_at: u64,
    // When another host was heard last.
    other_at: u64,
}

impl Model for Pace {
    ghost use Rattle.archive_pace.specs.Pace.{Pacing};

    ghost Value = { Pacing };

    ghost use Rattle.archive_pace.specs.View.{pacing_of};

    ghost view = { pacing_of };
}

// The keep of this host, if there is one.
fn keep_in(keeps: &[Keep], host: u32) -> Option<Keep>
    ensures { result ≡ keep_of host keeps.now }
{
    keeps.iter().copied().find(|keep| keep.host == host)
}

// The place of the keep of this host.
fn place_of(keeps: &[Keep], host: u32) -> Option<usize>
    ensures within { IfSome result (λ i. i < length keeps.now) }
    ensures place { IfSome result (λ i. without host keeps.now ≡ remove keeps.now i) }
    ensures none { IfNone result (without host keeps.now ≡ keeps.now) }
{
    for (i, keep) in keeps.iter().enumerate() {
        if keep.host == host {
            return Some(i);
        }
    }
    None
}

// When the pause after a keep of this host has passed; 0 if none is known.
fn rest_in(keep: Option<Keep>, times: u64) -> u64
    ensures { result ≡ rest_of times keep }
{
    match keep {
        Some(keep) => keep.rest(times),
        None => 0,
    }
}

impl Pace {
    /// No host was heard, and nothing was kept.
    pub fn new() -> Self
        ensures { result ≡ new_pace }
    {
        let none = Keep {
            host: 0,
            ended: 0,
            took: 0,
        };
        Pace {
            last: none,
            keeps: ArrayVec::new(),
            heard: 0,
            heard_at: 0,
            other_at: 0,
        }
    }

    /// A datagram of this host has come.
    pub fn hear(&mut self, host: u32, now: u64)
        ensures { self.new ≡ heard_by host now self.old }
    {
        if host != self.heard {
            self.other_at = self.heard_at;
            self.heard = host;
        }
        self.heard_at = now;
    }

    // When a host other than this was heard last.
    fn other_heard(&self, host: u32) -> u64
        ensures { result ≡ other_heard host self.now }
    {
        if host == self.heard {
            self.other_at
        } else {
            self.heard_at
        }
    }

    /// From when on a last block of this host may be taken.
    pub fn moment(&self, host: u32) -> u64
        ensures { result ≡ moment host self.now }
    {
        let own = rest_in(keep_in(self.keeps.as_slice(), host), 4);
        let alone = self.other_heard(host).saturating_add(PRESENT);
        let ended = self.last.ended;
        self.last.rest(1).max(own).min(alone).max(ended)
    }

    /// Whether a last block of this host may be taken.
    pub fn allows(&self, host: u32, now: u64) -> bool
        ensures { result ≡ allows_at host now self.now }
    {
        self.moment(host) <= now
    }

    /// When the last keep of this host ended; 0 if none is known.
    pub fn last_of(&self, host: u32) -> u64
        ensures { result ≡ last_of host self.now }
    {
        match keep_in(self.keeps.as_slice(), host) {
            Some(keep) => keep.ended,
            None => 0,
        }
    }

    /// Notes a keep. The oldest is forgotten if those of `HOSTS` other hosts are known.
    pub fn note(&mut self, keep: Keep)
        ensures { self.new ≡ noted keep self.old }
    {
        self.last = keep;
        if let Some(place) = place_of(self.keeps.as_slice(), keep.host) {
            self.keeps.remove(place);
        }
        if self.keeps.is_full() {
            self.keeps.remove(0);
        }
        self.keeps.push(keep);
    }
}
