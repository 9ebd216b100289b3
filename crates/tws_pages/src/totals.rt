//! What is counted of a file's solutions.

ghost use Rattle.std.specs.Prelude.{◌≡◌, ◌+◌, ◌^◌, ◌<◌, ◌≤◌, length};
ghost use Rattle.tws_file.specs.Record.{record_of, records_of};
ghost use Rattle.tws_tables.specs.Solved.{solved, solutions_in, total_ticks};

use std::alloc::Allocator;
use tws_file::Record;

/// How many solutions there are, and how many ticks they take in all.
#[derive(Clone, Copy)]
pub(crate) struct Totals {
    pub(crate) solutions: usize,
    pub(crate) ticks: u128,
}

impl Totals {
    const NONE: Totals = Totals {
        solutions: 0,
        ticks: 0,
    };

    // With one more record.
    fn plus<B: Allocator>(self, one: &Record<B>) -> Self
        requires solutions { self.solutions + 1 < 2 ^ 64 }
        requires ticks { self.ticks + 2 ^ 32 < 2 ^ 128 }
        ensures solutions { result.solutions ≡ self.solutions + length (solved (record_of one.now)) }
        ensures ticks { result.ticks ≡ self.ticks + total_ticks (solved (record_of one.now)) }
        ensures few { result.solutions ≤ self.solutions + 1 }
        ensures small { result.ticks ≤ self.ticks + 2 ^ 32 }
    {
        match one {
            Record::Solution(solution) => Totals {
                solutions: self.solutions + 1,
                ticks: self.ticks + u128::from(solution.ticks),
            },
            Record::Pad | Record::Set { .. } | Record::Bare { .. } => self,
        }
    }

    /// Those of these records.
    pub(crate) fn of<B: Allocator>(records: &[Record<B>]) -> Self
        ensures solutions { result.solutions ≡ length (solutions_in (records_of records.now)) }
        ensures ticks { result.ticks ≡ total_ticks (solutions_in (records_of records.now)) }
    {
        let mut totals = Totals::NONE;
        for record in records {
            totals = totals.plus(record);
        }
        totals
    }
}
