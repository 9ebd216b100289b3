//! What takes the bytes of an input as they are read.

ghost use Rattle.std.specs.Prelude.{◌≡◌, ◌++◌, ℕ, List, OnOk, IfErr};
ghost use Rattle.command_line.specs.declared.tool_fault.ToolFault.{ToolFault};
ghost use Rattle.command_line.specs.declared.tool_fault.ToolFault.TheVariants.{Memory};
ghost use Rattle.command_line.specs.Reading.{HasRoom};

use crate::tool_fault::ToolFault;

/// Takes the bytes of an input piece by piece, so that the input need not be in memory as a whole.
pub trait InputSink {
    /// It has taken these bytes, however they were cut.
    ghost has_taken: { Self → List ℕ → Type 0 };

    /// Why it takes no piece with which it would have these bytes.
    ghost refuses: { List ℕ → ToolFault → Type 0 };

    /// Takes the next piece. All pieces together have fewer than 2^64 bytes.
    ///
    /// # Errors
    ///
    /// The fault of the command whose input this is. The state of the sink is then unspecified.
    fn take(&mut self, piece: &[u8]) -> Result<(), ToolFault>
        requires { HasRoom has_taken self.old piece.now }
        ensures taken { (bytes : List ℕ) → has_taken self.old bytes → OnOk result (has_taken self.new (bytes ++ piece.now)) }
        ensures refused { (bytes : List ℕ) → has_taken self.old bytes → IfErr result (refuses (bytes ++ piece.now)) };
}

/// Keeps all bytes. It refuses a piece only with `Memory`.
impl InputSink for Vec<u8> {
    ghost has_taken = { λ vec bytes. vec.items ≡ bytes };

    ghost refuses = { λ _ e. e ≡ Memory };

    fn take(&mut self, piece: &[u8]) -> Result<(), ToolFault> {
        self.extend_from_slice(piece)?;
        Ok(())
    }
}
