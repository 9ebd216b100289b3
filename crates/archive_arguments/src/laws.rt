//! What holds for the limits. The function does nothing: its contract is a theorem.

ghost use Rattle.std.specs.Prelude.{◌≡◌};

use crate::limits::{MAX_PORT, PORT};

/// The values of the limits, which the definitions refer to by name.
pub fn limit_values()
    ensures port { PORT ≡ 6969 }
    ensures most { MAX_PORT ≡ 65535 }
{}
