//! Leaving solutions out of a file.

ghost use Rattle.std.specs.Prelude.{◌≡◌, filter, not};
ghost use Rattle.tws_file.specs.Record.{record_of, records_of};
ghost use Rattle.tws_compare.specs.Without.{file_without, records_without, solves};

use std::alloc::Allocator;
use tws_file::{Key, Record, Records, TwsFile};

// Whether a record is a solution of a level.
fn solves<A: Allocator>(key: Key, one: &Record<A>) -> bool
    ensures { result ≡ solves key (record_of one.now) }
{
    match one {
        Record::Solution(solution) => solution.key == key,
        Record::Pad | Record::Set { .. } | Record::Bare { .. } => false,
    }
}

// The records that are not solutions of a level, in order.
fn records_without<A: Allocator>(key: Key, records: Records<A>) -> Records<A>
    ensures { result ≡ records_without key records }
{
    let mut records = records.into_vec();
    records.retain(|one| !solves(key, one));
    Records::of(records)
}

/// Returns the file without its solutions of a level. Everything else is unchanged. Does not allocate.
pub fn without<A: Allocator>(key: Key, file: TwsFile<A>) -> TwsFile<A>
    ensures { result ≡ file_without key file }
{
    TwsFile {
        ruleset: file.ruleset,
        word: file.word,
        extra: file.extra,
        records: records_without(key, file.records),
    }
}
