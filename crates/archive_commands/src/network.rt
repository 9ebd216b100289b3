//! Where the wire of a client comes from.

ghost use Rattle.std.specs.Prelude.{◌≡◌, List, Option};
ghost use Rattle.archive_wire.specs.Wire.{Entry};

use crate::transfer_wire::TransferWire;
use std::alloc::Global;

/// Gives a command a wire, once it needs one.
pub trait Network {
    /// The wire.
    type Wire: TransferWire + Drop;

    /// The ghost calls of its next wire.
    ghost first_calls: { Self → Option (List Entry) };

    /// A wire that has no port yet.
    fn wire(&mut self, alloc: Global) -> Self::Wire
        ensures { Self.Wire.calls result ≡ first_calls self.old };
}
