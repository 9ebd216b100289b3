//! Theorems: functions that do nothing, whose clauses are the theorems.

ghost use Rattle.std.specs.Prelude.{◌≡◌};
ghost use Rattle.archive_table.specs.declared.limits.TheConstants.{LIVE};

/// The value of `LIVE`.
pub fn limit_values()
    ensures { LIVE ≡ 64 }
{}
