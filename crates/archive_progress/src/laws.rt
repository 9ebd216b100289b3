//! The limits' values, and a worked line.

ghost use Rattle.std.specs.Prelude.{◌≡◌, Some, codes};
ghost use Rattle.archive_progress.specs.Text.{progress_text};
ghost use Rattle.archive_progress.specs.declared.limits.TheConstants.{DELAY, PAUSE};

/// The limits, in milliseconds.
pub fn limit_values()
    ensures delay { DELAY ≡ 1000 }
    ensures pause { PAUSE ≡ 100 }
{}

/// The line of a put of 3,584 bytes of which five blocks were acknowledged in two seconds.
pub fn worked_line()
    ensures { progress_text (record { blocks = 5; length = Some 3584; millis = 2000 }) ≡ codes "block 5, 2560 bytes, 1280 bytes/s, 1024 bytes left" }
{}
