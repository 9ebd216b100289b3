//! A server's turns and rounds without an observer.

ghost use Rattle.std.specs.Prelude.{◌≡◌, ◌<◌, ◌≤◌, ◌+◌};
ghost use Rattle.archive_server.specs.Turn.{MakesTurns, MakesRounds, count_if};

use crate::server::Server;
use crate::server_observer::ServerObserver;
use archive_table::{Keeper, NoObserver};
use archive_wire::{ReadyWire, Wire};
use std::alloc::Allocator;

// Counts a file, if one was taken.
fn counted(taken: u64, took: bool) -> u64
    requires { taken < u64.MAX }
    ensures count { result ≡ count_if took taken }
    ensures few { result ≤ taken + 1 }
{
    if took { taken + 1 } else { taken }
}

/// Makes this many turns of a server, which nobody observes. Returns how many files were taken.
pub fn serve_turns<A: Allocator + Copy, W: Wire, K: Keeper>(
    wire: &mut W,
    keeper: &mut K,
    server: &mut Server<A>,
    turns: u64,
) -> u64
    ensures { MakesTurns turns server.old server.new result (W.calls wire.old) (W.calls wire.new) (K.calls keeper.old) (K.calls keeper.new) }
{
    let mut taken = 0;
    for _turn in 0..turns {
        taken = counted(taken, server.turn(wire, keeper, &mut NoObserver));
    }
    taken
}

/// Makes this many rounds of a server, and notifies the observer of its steps. Returns how many files were taken.
pub fn serve_rounds<A: Allocator + Copy, W: ReadyWire, K: Keeper, O: ServerObserver>(
    wire: &mut W,
    keeper: &mut K,
    observer: &mut O,
    server: &mut Server<A>,
    rounds: u64,
) -> u64
    ensures { MakesRounds rounds server.old server.new result (W.calls wire.old) (W.calls wire.new) (K.calls keeper.old) (K.calls keeper.new) }
{
    let mut taken = 0;
    for _round in 0..rounds {
        taken = counted(taken, server.round(wire, keeper, observer));
    }
    taken
}
