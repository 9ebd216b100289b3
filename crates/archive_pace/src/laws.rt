//! The limits' values, and a worked pace.

ghost use Rattle.std.specs.Prelude.{◌≡◌};
ghost use Rattle.archive_pace.specs.Pace.{heard_by, moment, new_pace, noted};
ghost use Rattle.archive_pace.specs.declared.limits.TheConstants.{HOSTS, PATIENCE, PAUSE, PRESENT, TRIES};

/// The limits, of which the times are in microseconds.
pub fn limit_values()
    ensures hosts { HOSTS ≡ 64 }
    ensures present { PRESENT ≡ 1_000_000 }
    ensures pause { PAUSE ≡ 1_500_000 }
    ensures patience { PATIENCE ≡ 50_000 }
    ensures tries { TRIES ≡ 2 }
{}

/// A keep for host 1 ended at the fifth second, and took 0.1 s. If another host was heard just then, blocks of others may be
/// taken after 0.1 s, and those of host 1 after 0.4 s; if nobody else ever was, at once.
pub fn worked_pace()
    ensures others { moment 2 (noted (record { host = 1; ended = 5_000_000; took = 100_000 }) (heard_by 1 5_000_000 (heard_by 2 5_000_000 new_pace))) ≡ 5_100_000 }
    ensures same { moment 1 (noted (record { host = 1; ended = 5_000_000; took = 100_000 }) (heard_by 1 5_000_000 (heard_by 2 5_000_000 new_pace))) ≡ 5_400_000 }
    ensures alone { moment 1 (noted (record { host = 1; ended = 5_000_000; took = 100_000 }) (heard_by 1 5_000_000 new_pace)) ≡ 5_000_000 }
{}
