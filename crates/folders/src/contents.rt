//! What is to be in a file.

ghost use Rattle.std.specs.Prelude.{ℕ, List, OnOk};
ghost use Rattle.std.specs.Io.KnownBytes.{Appends};

use byte_output::OutFault;
use std::io::Write;

/// What is to be in a file.
pub trait Contents {
    /// Its bytes.
    ghost text: { Self → List ℕ };

    /// Writes it.
    ///
    /// # Errors
    ///
    /// Fails if the writer does.
    fn write_to<W: Write>(&self, out: &mut W) -> Result<(), OutFault>
        ensures { OnOk result (Appends (W.contents out.old) (W.contents out.new) (text self.now)) };
}
