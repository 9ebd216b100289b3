//! What holds for the limits. The function does nothing: its contract is a theorem.

ghost use Rattle.std.specs.Prelude.{◌≡◌};

use crate::limits::ROUNDS;

/// The value of the limit, which the definitions refer to by name.
pub fn limit_values()
    ensures rounds { ROUNDS ≡ 1000000000 }
{}
