//! Theorems: functions that do nothing, whose clauses are the theorems.

ghost use Rattle.std.specs.Prelude.{◌≡◌};
ghost use Rattle.archive_wire.specs.declared.limits.TheConstants.{QUIET_TURNS, TIMEOUT};
ghost use Rattle.archive_wire.specs.declared.wire.TheConstants.{RECEIVE_SIZE};

/// The values of the limits, which the definitions refer to by name.
pub fn limit_values()
    ensures quiet { QUIET_TURNS ≡ 200 }
    ensures timeout { TIMEOUT ≡ 1000 }
    ensures receive { RECEIVE_SIZE ≡ 517 }
{}
