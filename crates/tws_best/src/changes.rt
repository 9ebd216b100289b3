//! The changes of a merge: those of the solutions that are better than the best so far are taken, and each change is noted, so
//! that all can be undone.

ghost use Rattle.std.specs.Prelude.{◌≡◌, [], ◌+◌, ◌++◌, List, length, map, Contains, Option, IfOk, OnOk, OnErr};
ghost use Rattle.std.specs.List.Sorted.{IsPermutation};
ghost use Rattle.tws_file.specs.Record.{records_of};
ghost use Rattle.tws_best.specs.Best.{IsBestOf, keyed_body, solved_in};
ghost use Rattle.tws_best.specs.Bodies.{BodyPair, keyed_bodies};
ghost use Rattle.tws_best.specs.Steps.{Takes, Undoes, LeadsBack, CanGoBack, back_to};

use crate::bodies::Bodies;
use crate::body::Body;
use std::alloc::{AllocError, Allocator};
use std::mem;
use tws_file::{Key, Record, Solution};

// Each key that was changed, with what it had before.
pub(crate) type Changes<A> = Vec<(Key, Option<Body<A>>), A>;

// Takes a solution if it is better than the best so far at its key.
fn take<A: Allocator + Copy, B: Allocator>(
    alloc: A,
    best: &mut Bodies<A>,
    done: &mut Changes<A>,
    solution: &Solution<B>,
) -> Result<(), AllocError>
    ensures ok { OnOk result (Takes (keyed_body solution.now) best.old best.new (length done.old.items) (length done.new.items)) }
    ensures undo { (first : List BodyPair) → Undoes first done.old.items best.old → Undoes first done.new.items best.new }
{
    done.reserve(1)?;
    let key = solution.key;
    if let Some(old) = best.offer(alloc, key, solution)? {
        done.push_reserved((key, old));
    }
    Ok(())
}

// The solutions among the records, in order. Each comes with its key, so that a sort by key looks up none of them.
fn solutions_among<A: Allocator, B: Allocator>(
    alloc: A,
    records: &[Record<B>],
) -> Result<Vec<(Key, &Solution<B>), A>, AllocError>
    ensures { IfOk result (λ all. map (λ s. keyed_body s.1.now) all.items ≡ solved_in (records_of records.now)) }
{
    let mut all = Vec::new(alloc);
    for record in records {
        if let Record::Solution(solution) = record {
            all.push((solution.key, solution))?;
        }
    }
    Ok(all)
}

// The solutions among the records, by rising keys. So each search in a large map ends close to where the previous one
// did, in memory nearby.
fn sorted_solutions<A: Allocator, B: Allocator>(
    alloc: A,
    records: &[Record<B>],
) -> Result<Vec<(Key, &Solution<B>), A>, AllocError>
    ensures { IfOk result (λ all. IsPermutation (solved_in (records_of records.now)) (map (λ s. keyed_body s.1.now) all.items)) }
{
    let mut all = solutions_among(alloc, records)?;
    all.sort_unstable_by_key(|one| one.0);
    Ok(all)
}

// Takes those of the solutions that are better than the best so far.
fn take_all<A: Allocator + Copy, B: Allocator>(
    alloc: A,
    best: &mut Bodies<A>,
    done: &mut Changes<A>,
    solutions: &[(Key, &Solution<B>)],
) -> Result<(), AllocError>
    requires leads { (first : List BodyPair) × LeadsBack first done.old.items best.old }
    ensures best { OnOk result (IsBestOf (Contains (keyed_bodies best.old ++ map (λ s. keyed_body s.1.now) solutions.now)) (keyed_bodies best.new)) }
    ensures leads { (first : List BodyPair) → LeadsBack first done.old.items best.old → OnOk result (LeadsBack first done.new.items best.new) }
    ensures undo { (first : List BodyPair) → Undoes first done.old.items best.old → Undoes first done.new.items best.new }
{
    for (_, solution) in solutions {
        take(alloc, best, done, solution)?;
    }
    Ok(())
}

// Takes those of the solutions among the records that are better than the best so far.
fn take_records<A: Allocator + Copy, B: Allocator>(
    alloc: A,
    best: &mut Bodies<A>,
    done: &mut Changes<A>,
    records: &[Record<B>],
) -> Result<(), AllocError>
    requires leads { (first : List BodyPair) × LeadsBack first done.old.items best.old }
    ensures best { OnOk result (IsBestOf (Contains (keyed_bodies best.old ++ solved_in (records_of records.now))) (keyed_bodies best.new)) }
    ensures leads { (first : List BodyPair) → LeadsBack first done.old.items best.old → OnOk result (LeadsBack first done.new.items best.new) }
    ensures undo { (first : List BodyPair) → Undoes first done.old.items best.old → Undoes first done.new.items best.new }
{
    let solutions = sorted_solutions(alloc, records)?;
    take_all(alloc, best, done, solutions.as_slice())
}

// Restores what a key had. If that was a body, the key has a body now, so nothing grows.
fn go_back<A: Allocator + Copy>(best: &mut Bodies<A>, key: Key, old: Option<Body<A>>)
    requires { CanGoBack key old best.old }
    ensures { best.new ≡ back_to key old best.old }
{
    match old {
        Some(body) => {
            let _ = best.insert(key, body);
        }
        None => {
            best.remove(key);
        }
    }
}

// Undoes the changes, the last one first. Does not allocate.
pub(crate) fn undo<A: Allocator + Copy>(best: &mut Bodies<A>, done: Changes<A>)
    requires { (first : List BodyPair) × Undoes first done.items best.old }
    ensures { (first : List BodyPair) → Undoes first done.items best.old → best.new ≡ first }
{
    let mut done = done;
    while let Some((key, old)) = done.pop() {
        go_back(best, key, old);
    }
}

// Adds the solutions among the records: the best of all remain. On error all changes are undone, which does not
// allocate.
pub(crate) fn add<A: Allocator + Copy, B: Allocator>(
    alloc: A,
    best: &mut Bodies<A>,
    done: &mut Changes<A>,
    records: &[Record<B>],
) -> Result<(), AllocError>
    requires leads { (first : List BodyPair) × LeadsBack first done.old.items best.old }
    ensures best { OnOk result (IsBestOf (Contains (keyed_bodies best.old ++ solved_in (records_of records.now))) (keyed_bodies best.new)) }
    ensures leads { (first : List BodyPair) → LeadsBack first done.old.items best.old → LeadsBack first done.new.items best.new }
    ensures none { OnErr result (done.new.items ≡ []) }
{
    match take_records(alloc, best, done, records) {
        Ok(()) => Ok(()),
        Err(fault) => {
            let changes = mem::replace(done, Vec::new(alloc));
            undo(best, changes);
            Err(fault)
        }
    }
}
