//! The wire of a client.

ghost use Rattle.std.specs.Prelude.{◌≡◌, ℕ, List, [], Option, None, option_map};
ghost use Rattle.archive_commands.specs.declared.reached.Reached.{Reached as Progress};
ghost use Rattle.archive_commands.specs.Reached.{with_length};

use crate::reached::Reached;
use archive_memory::MemoryWire;
use archive_progress::ProgressWire;
use archive_wire::ReadyWire;
use std::io;
use std::io::Write;

/// A wire that can say why a server refused a transfer or a port was not opened, and how far a transfer has come, which it may
/// also show.
pub trait TransferWire: ReadyWire {
    /// The text of the ERROR that was received last, as far as it was kept; empty if there was none.
    ghost refusal_of: { Self → List ℕ };

    /// How far the last transfer came, where that is known.
    ghost reached_of: { Self → Option Progress };

    /// The text of the ERROR that was received last, as far as it was kept; empty if there was none.
    fn refusal(&self) -> &[u8]
        ensures { result.now ≡ refusal_of self.now };

    /// What the system said of the port that was not opened, where that is known.
    fn last_error(&self) -> Option<io::Error>;

    /// How far the last transfer came, where that is known.
    fn reached(&self) -> Option<Reached>
        ensures { result ≡ reached_of self.now };

    /// The next transfer begins, of a file of this length in bytes if that is known.
    fn begin(&mut self, length: Option<u64>)
        ensures { Self.calls self.new ≡ Self.calls self.old };

    /// The transfer has ended: nothing more is shown of it.
    fn finish(&mut self)
        ensures { Self.calls self.new ≡ Self.calls self.old };
}

/// A wire in memory keeps no such text, has no port of the system, and neither counts nor shows anything.
impl TransferWire for MemoryWire {
    ghost refusal_of = { λ _. [] };

    ghost reached_of = { λ _. None };

    fn refusal(&self) -> &[u8] {
        &[]
    }

    fn last_error(&self) -> Option<io::Error> {
        None
    }

    fn reached(&self) -> Option<Reached> {
        None
    }

    fn begin(&mut self, _length: Option<u64>) {}

    fn finish(&mut self) {}
}

impl<N: TransferWire, W: Write> TransferWire for ProgressWire<N, W> {
    ghost refusal_of = { λ w. N.refusal_of w.wire };

    ghost reached_of = { λ w. option_map (λ r. with_length r w.tally.length) (N.reached_of w.wire) };

    fn refusal(&self) -> &[u8] {
        self.wire().refusal()
    }

    fn last_error(&self) -> Option<io::Error> {
        self.wire().last_error()
    }

    // The wire below is not told the length.
    fn reached(&self) -> Option<Reached> {
        match self.wire().reached() {
            Some(reached) => Some(reached.with_length(self.length())),
            None => None,
        }
    }

    fn begin(&mut self, length: Option<u64>) {
        ProgressWire::begin(self, length);
    }

    fn finish(&mut self) {
        ProgressWire::finish(self);
    }
}
