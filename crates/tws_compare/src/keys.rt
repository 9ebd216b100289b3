//! The levels that either of two files has solved.

ghost use Rattle.std.specs.Prelude.{◌≡◌, ◌++◌, IfOk, OnOk};
ghost use Rattle.tws_file.specs.Record.{records_of};
ghost use Rattle.tws_best.specs.Best.{solved_in};
ghost use Rattle.tws_compare.specs.Compare.{all_keys, keys_of};

use std::alloc::{AllocError, Allocator};
use tws_file::{Key, Record};

// Appends the key of each solution among the records, in order.
fn push_keys<A: Allocator, B: Allocator>(
    keys: &mut Vec<Key, A>,
    records: &[Record<B>],
) -> Result<(), AllocError>
    ensures { OnOk result (keys.new.items ≡ keys.old.items ++ all_keys (solved_in (records_of records.now))) }
{
    for record in records {
        if let Record::Solution(solution) = record {
            keys.push(solution.key)?;
        }
    }
    Ok(())
}

// The key of each solution in either list of records, in order.
fn keys_among<A: Allocator, B: Allocator, C: Allocator>(
    alloc: A,
    mine: &[Record<B>],
    theirs: &[Record<C>],
) -> Result<Vec<Key, A>, AllocError>
    ensures { IfOk result (λ keys. keys.items ≡ all_keys (solved_in (records_of mine.now) ++ solved_in (records_of theirs.now))) }
{
    let mut keys = Vec::new(alloc);
    push_keys(&mut keys, mine)?;
    push_keys(&mut keys, theirs)?;
    Ok(keys)
}

// The same keys by rising order, each once.
pub(crate) fn keys_of_either<A: Allocator, B: Allocator, C: Allocator>(
    alloc: A,
    mine: &[Record<B>],
    theirs: &[Record<C>],
) -> Result<Vec<Key, A>, AllocError>
    ensures { IfOk result (λ keys. keys.items ≡ keys_of (solved_in (records_of mine.now) ++ solved_in (records_of theirs.now))) }
{
    let mut keys = keys_among(alloc, mine, theirs)?;
    keys.sort_unstable();
    keys.dedup();
    Ok(keys)
}
