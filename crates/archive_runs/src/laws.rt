//! Theorems: functions that do nothing, whose clauses are the theorems.

ghost use Rattle.std.specs.Prelude.{◌≡◌};
ghost use Rattle.archive_runs.specs.declared.limits.TheConstants.{DALLY_PAUSE, DALLY_LIMIT};

/// The values of the limits, which the definitions refer to by name.
pub fn limit_values()
    ensures pause { DALLY_PAUSE ≡ 250 }
    ensures dally { DALLY_LIMIT ≡ 2000 }
{}
