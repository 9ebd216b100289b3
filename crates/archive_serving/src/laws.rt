//! What holds for the limits. The function does nothing: its contract is a theorem.

ghost use Rattle.std.specs.Prelude.{◌≡◌};

use crate::limits::{HISTORY, MAX_HISTORY, PER_HOST, TURNS};

/// The values of the limits, which the definitions refer to by name.
pub fn limit_values()
    ensures turns { TURNS ≡ 1000000000 }
    ensures per_host { PER_HOST ≡ 32 }
    ensures history { HISTORY ≡ 10000000000 }
    ensures most_history { MAX_HISTORY ≡ 1000000000000000 }
{}
