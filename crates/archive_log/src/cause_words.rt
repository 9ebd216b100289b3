//! Why a transfer failed, in words.

ghost use Rattle.std.specs.Prelude.{Some};
ghost use Rattle.archive_log.specs.Lines.{cause_text};

use archive_table::FailureCause;
use byte_output::Printable;
use std::fmt;

/// Why a transfer failed, in words.
#[derive(Clone, Copy, Debug)]
pub(crate) struct CauseWords(pub(crate) FailureCause);

impl fmt::Display for CauseWords {
    ghost output = { λ words. Some (cause_text words.0) };

    fn fmt<W: fmt::Write>(&self, f: &mut fmt::Formatter<W>) -> fmt::Result {
        match self.0 {
            FailureCause::Refused(why) => Printable::of(why.text()).fmt(f),
            FailureCause::PeerError => f.write_str("error from the peer"),
            FailureCause::TimedOut => f.write_str("timed out"),
        }
    }
}
