//! What holds for every command, whatever it reads. This function does nothing: its contract is a theorem.

ghost use Rattle.std.specs.Prelude.{◌≡◌};

use crate::limits::{INPUT_PIECE, INPUT_READS};

/// The values of the limits, which the definitions refer to by name.
pub fn limit_values()
    ensures { (INPUT_READS ≡ 67108864) × (INPUT_PIECE ≡ 16384) }
{}
