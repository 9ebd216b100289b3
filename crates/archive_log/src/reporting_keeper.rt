//! The keeper that reports what is not kept.

ghost use Rattle.std.specs.Prelude.{◌≡◌, ◌<◌, ◌≤◌, length, min, Err, IfOk};
ghost use Rattle.tftp_ends.specs.declared.limits.TheConstants.{MAX_FILE};
ghost use Rattle.tws_best.specs.Best.{collection_text};
ghost use Rattle.archive_table.specs.Keeper.{KeeperGrows, kept_by};
ghost use Rattle.byte_output.specs.Failures.{Rises};
ghost use Rattle.archive_keepers.specs.Limited.{own_calls, saturating_sum};

use crate::log_event::LogEvent;
use crate::log_line::LogLine;
use archive_history::Stamp;
use archive_keepers::{Limited, Replaced, ServedKeeper};
use archive_table::{KeepFault, Keeper};
use arrayvec::ArrayString;
use log::Log;
use std::alloc::Allocator;
use std::fmt::Write;
use std::io;
use std::time::Clock;
use tftp_ends::MAX_FILE;
use tws_best::Collection;
use tws_file::Ruleset;

// How many bytes of a cause are reported at most.
const CAUSE: usize = 256;

/// A keeper over another one, which refuses what is longer than a limit or could not be served, and reports to a log each
/// collection that is not kept. A line that cannot be written changes nothing else.
#[derive(Drop)]
pub struct ReportingKeeper<K: ServedKeeper, C: Clock, L: Log> {
    keeper: Limited<K>,
    clock: C,
    log: L,
}

impl<K: ServedKeeper, C: Clock, L: Log> ReportingKeeper<K, C, L> {
    /// A keeper over this one, for texts of at most `limit` bytes, of which no more than `MAX_FILE` can be served.
    pub fn new(keeper: K, limit: u64, clock: C, log: L) -> Self
        ensures keeper { result.keeper.keeper ≡ keeper }
        ensures limit { result.keeper.limit ≡ min limit MAX_FILE }
    {
        ReportingKeeper {
            keeper: Limited::new(keeper, limit.min(MAX_FILE)),
            clock,
            log,
        }
    }

    // Reports that a collection of `bytes` bytes was not kept.
    fn report(&self, ruleset: Ruleset, bytes: u64, why: &str) {
        let time = &Stamp::now(&self.clock);
        let event = LogEvent::KeepFailed {
            ruleset,
            bytes,
            why,
        };
        LogLine { time, event }.report(&self.log);
    }

    // Reports that the keeper below the limit did not keep a collection, with the system's cause if it is known.
    fn report_fault(&self, ruleset: Ruleset, bytes: u64, fault: KeepFault) {
        if fault == KeepFault::Memory {
            self.report(ruleset, bytes, "out of memory");
            return;
        }
        let mut cause = ArrayString::<CAUSE>::new();
        // What does not fit is left out.
        if let Some(replaced) = self.keeper.keeper().replaced() {
            let _ = write!(cause, "{replaced}");
        } else if let Some(error) = self.keeper.keeper().last_error() {
            let _ = write!(cause, "{error}");
        }
        self.report(ruleset, bytes, cause.as_str());
    }
}

impl<K: ServedKeeper, C: Clock, L: Log> Keeper for ReportingKeeper<K, C, L> {
    ghost calls = { λ r. own_calls (K.calls r.keeper.keeper) r.keeper.entries };

    ghost failed = { λ r. saturating_sum (K.failed r.keeper.keeper) r.keeper.refused };

    fn keep<A: Allocator>(
        &mut self,
        ruleset: Ruleset,
        collection: &Collection<A>,
    ) -> Result<(), KeepFault>
        ensures limited { self.old.keeper.limit < length (collection_text collection.now) → result ≡ Err KeepFault.Device }
        ensures limit { self.new.keeper.limit ≡ self.old.keeper.limit }
        ensures calls { KeeperGrows (own_calls (K.calls self.old.keeper.keeper) self.old.keeper.entries) (own_calls (K.calls self.new.keeper.keeper) self.new.keeper.entries) (kept_by result «ruleset» (collection_text collection.now)) }
        ensures more { saturating_sum (K.failed self.old.keeper.keeper) self.old.keeper.refused ≤ saturating_sum (K.failed self.new.keeper.keeper) self.new.keeper.refused }
        ensures failed { result ≡ Err KeepFault.Device → Rises (saturating_sum (K.failed self.old.keeper.keeper) self.old.keeper.refused) (saturating_sum (K.failed self.new.keeper.keeper) self.new.keeper.refused) }
    {
        let refused = self.keeper.refused();
        let unreadable = self.keeper.keeper().unreadable();
        let result = self.keeper.keep(ruleset, collection);
        if let Err(fault) = result {
            let bytes = u64::try_from(collection.text_len()).unwrap_or(u64::MAX);
            if self.keeper.refused() > refused {
                self.report(ruleset, bytes, "longer than the limit");
            } else if self.keeper.keeper().unreadable() > unreadable {
                self.report(ruleset, bytes, "a solution without moves or of level 0");
            } else {
                self.report_fault(ruleset, bytes, fault);
            }
        }
        result
    }

    fn load<A: Allocator>(
        &mut self,
        alloc: A,
        ruleset: Ruleset,
    ) -> Result<Option<Vec<u8, A>>, KeepFault> {
        self.keeper.load(alloc, ruleset)
    }

    fn failures(&self) -> u64 {
        self.keeper.failures()
    }
}

impl<K: ServedKeeper, C: Clock, L: Log> ServedKeeper for ReportingKeeper<K, C, L> {
    ghost usable = { λ r. K.usable r.keeper.keeper };

    fn is_usable(&self) -> bool {
        self.keeper.is_usable()
    }

    fn replaced(&self) -> Option<Replaced> {
        self.keeper.replaced()
    }

    fn unreadable(&self) -> u64 {
        self.keeper.unreadable()
    }

    fn last_error(&self) -> Option<io::Error> {
        self.keeper.last_error()
    }
}
