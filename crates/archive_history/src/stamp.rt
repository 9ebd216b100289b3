//! Times as a log and the history spell them.

ghost use Rattle.std.specs.Prelude.{◌≡◌, IfOk, string_bytes};
ghost use Rattle.archive_history.specs.Times.{IsStamp, ShowsMoment, compact, day_of};

use arrayvec::ArrayString;
use jiff::Timestamp;
use jiff::fmt::temporal::DateTimePrinter;
use std::alloc::{AllocError, Allocator};
use std::marker::Model;
use std::time::Clock;

/// A moment in UTC to the millisecond, as RFC 3339 spells it: `2026-11-27T09:15:00.123Z`.
#[derive(Drop)]
pub struct Stamp {
    text: ArrayString<33>,
}

impl Model for Stamp {
    ghost use Rattle.std.specs.Prelude.{ℕ, List};

    ghost Value = { List ℕ };

    ghost view = { λ s. s.text.bytes };
}

impl Stamp {
    /// The stamp of a moment. What is below a millisecond is cut off.
    pub fn of(moment: Timestamp) -> Self
        ensures { IsStamp moment result }
    {
        let printer = DateTimePrinter::new().precision(Some(3));
        Stamp {
            text: printer.timestamp_text(moment.to_plain()),
        }
    }

    /// The moment that the clock shows. One that cannot be read counts as one at the start of 1970.
    pub fn now(clock: &impl Clock) -> Self
        ensures { ShowsMoment result }
    {
        Stamp::of(Timestamp::now(clock).unwrap_or(Timestamp::UNIX_EPOCH))
    }

    /// The text.
    pub fn as_str(&self) -> &str
        ensures { result.now ≡ self.now }
    {
        self.text.as_str()
    }

    /// The text without dashes and colons, as a name of a file begins: `20261127T091500.123Z`.
    pub(crate) fn compact<A: Allocator + Copy>(&self, alloc: A) -> Result<String<A>, AllocError>
        ensures { IfOk result (λ text. string_bytes text ≡ compact self.now) }
    {
        self.text
            .as_str()
            .chars()
            .filter(|c| *c != '-' && *c != ':')
            .collect(alloc)
    }

    /// The day alone, as its folder is named: `2026-11-27`.
    pub(crate) fn day<A: Allocator + Copy>(&self, alloc: A) -> Result<String<A>, AllocError>
        ensures { IfOk result (λ text. string_bytes text ≡ day_of self.now) }
    {
        self.text
            .as_str()
            .chars()
            .take_while(|c| *c != 'T')
            .collect(alloc)
    }
}
