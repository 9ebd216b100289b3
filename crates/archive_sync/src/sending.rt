//! Putting what is better.

ghost use Rattle.std.specs.Prelude.{option_map};
ghost use Rattle.archive_sync.specs.Fetching.{PutsPart};

use archive_runs::{RunFault, put_in_rounds};
use archive_wire::ReadyWire;
use std::alloc::Allocator;
use tftp_packet::Endpoint;

/// Puts a text at an archive, in at most `rounds` rounds, and returns its length in bytes; without one nothing is sent.
///
/// # Errors
///
/// Those of `put_in_rounds` of `archive_runs`.
pub fn put_part<A: Allocator + Copy, W: ReadyWire>(
    wire: &mut W,
    to: Endpoint,
    part: Option<Vec<u8, A>>,
    rounds: u64,
) -> Result<Option<u64>, RunFault>
    ensures { PutsPart to (option_map (λ text. text.items) part) rounds result (W.calls wire.old) (W.calls wire.new) }
{
    match part {
        Some(text) => match put_in_rounds(wire, to, text, rounds) {
            Ok(len) => Ok(Some(len)),
            Err(fault) => Err(fault),
        },
        None => Ok(None),
    }
}
