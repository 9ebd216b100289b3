//! A small buffer for bytes that are written together.

ghost use Rattle.std.specs.Prelude.{◌≡◌, ◌+◌, ◌<◌, ◌≤◌, [], ◌++◌, length, OnOk, OnErr, IfErr};
ghost use Rattle.byte_output.specs.Output.{Sends, AppendsPrefix};

use crate::out_fault::OutFault;
use crate::output::put;
use arrayvec::ArrayVec;
use std::io::Write;
use std::marker::Model;

/// The number of bytes to gather before they are written together.
pub const LARGE: usize = 1 << 16;

/// At most N bytes that belong together, held in the value itself: a buffer does not allocate.
#[derive(Drop)]
pub struct Buffer<const N: usize> {
    bytes: ArrayVec<u8, N>,
}

impl<const N: usize> Model for Buffer<N> {
    ghost use Rattle.std.specs.Prelude.{ℕ, List};

    ghost Value = { List ℕ };

    ghost view = { λ b. b.bytes.items };
}

impl<const N: usize> Buffer<N> {
    /// An empty buffer.
    pub fn new() -> Self
        ensures { result ≡ [] }
    {
        Buffer {
            bytes: ArrayVec::new(),
        }
    }

    /// Borrows the bytes, in order.
    pub fn as_slice(&self) -> &[u8]
        ensures { result.now ≡ self.now }
    {
        self.bytes.as_slice()
    }

    /// Appends bytes. There must be room for them: N bytes in all.
    pub fn push(&mut self, bytes: &[u8])
        requires { length self.old + length bytes.now ≤ N }
        ensures { self.new ≡ self.old ++ bytes.now }
    {
        let Ok(()) = self.bytes.try_extend_from_slice(bytes) else {
            unreachable!();
        };
    }

    // Appends bytes to an empty buffer; more than N bytes are written instead.
    fn send_first<W: Write>(&mut self, bytes: &[u8], out: &mut W) -> Result<(), OutFault>
        requires { self.old ≡ [] }
        ensures gathers { length bytes.now ≤ N → (self.new ≡ bytes.now) × (out.new ≡ out.old) }
        ensures ok { OnOk result (Sends (W.contents out.old) (W.contents out.new) bytes.now self.new) }
        ensures err { OnErr result (AppendsPrefix (W.contents out.old) (W.contents out.new) bytes.now) }
        ensures io { IfErr result (λ e. e ≡ OutFault.Io) }
    {
        match self.bytes.try_extend_from_slice(bytes) {
            Ok(()) => Ok(()),
            Err(_) => put(out, bytes),
        }
    }

    /// Appends bytes. If there is no room for them, the bytes gathered before are written first; more than N new bytes
    /// are then written too.
    ///
    /// # Errors
    ///
    /// `Io` if the writer fails. A proper prefix of the gathered bytes and these was written.
    pub fn send<W: Write>(&mut self, bytes: &[u8], out: &mut W) -> Result<(), OutFault>
        // Nothing is written if there is room, and only the bytes gathered before if the new ones then have room.
        ensures gathers { length self.old + length bytes.now ≤ N → (self.new ≡ self.old ++ bytes.now) × (out.new ≡ out.old) }
        ensures begins { N < length self.old + length bytes.now → length bytes.now ≤ N → OnOk result (self.new ≡ bytes.now) }
        ensures ok { OnOk result (Sends (W.contents out.old) (W.contents out.new) (self.old ++ bytes.now) self.new) }
        ensures err { OnErr result (AppendsPrefix (W.contents out.old) (W.contents out.new) (self.old ++ bytes.now)) }
        ensures io { IfErr result (λ e. e ≡ OutFault.Io) }
    {
        if let Ok(()) = self.bytes.try_extend_from_slice(bytes) {
            return Ok(());
        }
        put(out, self.as_slice())?;
        self.bytes.clear();
        self.send_first(bytes, out)
    }
}
