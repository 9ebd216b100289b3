//! Lines of the log.

ghost use Rattle.std.specs.Prelude.{◌≡◌, Some, []};
ghost use Rattle.log.specs.Line.{record_line};
ghost use Rattle.archive_log.specs.Lines.{line_of, timed_pairs};

use crate::log_event::LogEvent;
use crate::pairs::visit_pair;
use archive_history::Stamp;
use log::kv::{Source, VisitSource};
use log::{Log, Metadata, Record, kv};

/// An event with its time, which is one line of the log.
#[derive(Clone, Copy)]
pub struct LogLine<'a> {
    /// When it happened.
    pub time: &'a Stamp,
    /// What happened.
    pub event: LogEvent<'a>,
}

/// The time and the pairs of the event.
impl Source for LogLine<'_> {
    ghost pairs = { λ line. Some (timed_pairs line.time.now line.event) };

    fn visit<V: VisitSource>(&self, visitor: &mut V) -> Result<(), kv::Error> {
        visit_pair(visitor, "time", &self.time.as_str())?;
        self.event.visit(visitor)
    }
}

impl LogLine<'_> {
    /// The record of the line, at the target `tws`. Its text is `line_of` the time and the event.
    pub fn record(&self) -> Record<'_, &str, &Self>
        ensures { record_line (λ message. Some message.now) (λ line. Some (timed_pairs line.now.time.now line.now.event)) (λ _. Some []) result ≡ Some (line_of self.now.time.now self.now.event) }
    {
        let metadata = Metadata::new(self.event.level(), "tws");
        Record::new(metadata, self.event.message(), self, ())
    }

    /// Writes the line to a log. A log that cannot be written changes nothing else.
    pub fn report<L: Log>(&self, log: &L) {
        log.log(&self.record());
    }
}
