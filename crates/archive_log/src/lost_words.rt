//! Why a file is not in the history, in words.

ghost use Rattle.std.specs.Prelude.{Some, option_map};
ghost use Rattle.archive_log.specs.Lines.{lost_text};

use archive_history::HistoryFault;
use byte_output::Printable;
use std::fmt;

/// Why a file is not in the history, with the words of the system if they are known.
#[derive(Clone, Copy, Debug)]
pub(crate) struct LostWords<'a> {
    pub(crate) why: HistoryFault,
    pub(crate) cause: Option<&'a str>,
}

impl fmt::Display for LostWords<'_> {
    ghost output = { λ words. Some (lost_text words.why (option_map (λ c. c.now) words.cause)) };

    fn fmt<W: fmt::Write>(&self, f: &mut fmt::Formatter<W>) -> fmt::Result {
        match self.cause {
            None => self.why.fmt(f),
            Some(cause) => {
                let cause = Printable::of(cause.as_bytes());
                write!(f, "{}: {}", self.why, cause)
            }
        }
    }
}
