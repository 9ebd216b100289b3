//! Tests of the allocator that refuses.

// What no clause says: which requests are refused, what the count is, and what is left after a refusal.
use super::*;
use std::alloc::Global;
use std::test::Fail;

// Makes three requests: one for each text, and one for the list.
fn lengths<A: Allocator + Copy>(alloc: A) -> Result<Vec<usize, A>, AllocError> {
    let short = String::from_str(alloc, "one")?;
    let long = String::from_str(alloc, "three")?;
    let mut lengths = Vec::with_capacity(alloc, 2)?;
    lengths.push(short.len())?;
    lengths.push(long.len())?;
    Ok(lengths)
}

// Whether it has refused a request, and how many it has had.
fn state<A: Allocator>(refusing: &Refusing<A>) -> (bool, u64) {
    (refusing.has_refused(), refusing.requests())
}

#[test]
fn refuses_the_first_push_alone(rt: HostRuntime) {
    let refusing = Refusing::new(rt.alloc(), 1);
    let mut numbers = Vec::new(&refusing);
    let before = state(&refusing);
    let first = numbers.push(7u8).is_err();
    let between = (numbers.is_empty(), state(&refusing));
    let second = numbers.push(8).is_ok();
    assert_eq!(rt;
        (before, first, between, second, state(&refusing)),
        ((false, 0), true, (true, (true, 1)), true, (true, 2))
    );
    assert_eq!(rt; numbers.as_slice(), [8].as_slice());
}

#[test]
fn refuses_nothing_at_zero(rt: HostRuntime) -> Result<(), Fail> {
    let refusing = Refusing::new(rt.alloc(), 0);
    let lengths = lengths(&refusing)?;
    assert_eq!(rt; lengths.as_slice(), [3, 5].as_slice());
    assert_eq!(rt; state(&refusing), (false, 3));
    Ok(())
}

#[test]
fn a_refused_growth_keeps_the_items(rt: HostRuntime) -> Result<(), Fail> {
    let refusing = Refusing::new(rt.alloc(), 2);
    let mut numbers = Vec::from_slice(&refusing, &[1u8, 2])?;
    let before = state(&refusing);
    let third = numbers.push(3).is_err();
    assert_eq!(rt; numbers.as_slice(), [1, 2].as_slice());
    assert_eq!(rt;
        (before, third, state(&refusing)),
        ((false, 1), true, (true, 2))
    );
    numbers.push(3)?;
    assert_eq!(rt; numbers.as_slice(), [1, 2, 3].as_slice());
    Ok(())
}

// Whether a request for one byte is granted.
fn is_granted<A: Allocator>(alloc: A) -> bool {
    Box::new(alloc, 7u8).is_ok()
}

#[test]
fn refuses_a_request_that_is_set_anew(rt: HostRuntime) {
    let mut refusing = Refusing::new(rt.alloc(), 1);
    let first = is_granted(&refusing);
    refusing.nth = 3;
    let before = state(&refusing);
    let second = is_granted(&refusing);
    let third = is_granted(&refusing);
    let fourth = is_granted(&refusing);
    assert_eq!(rt;
        ((first, second, third, fourth), before, state(&refusing)),
        ((false, true, false, true), (false, 1), (true, 4))
    );
}

#[test]
fn passes_on_what_the_inner_allocator_refuses(rt: HostRuntime) {
    let inner = Refusing::new(rt.alloc(), 1);
    let outer = Refusing::new(&inner, 2);
    let first = is_granted(&outer);
    let by_inner = (state(&inner), state(&outer));
    let second = is_granted(&outer);
    let by_outer = (state(&inner), state(&outer));
    let third = is_granted(&outer);
    let at_last = (state(&inner), state(&outer));
    assert_eq!(rt;
        ((first, by_inner), (second, by_outer), (third, at_last)),
        (
            (false, ((true, 1), (false, 1))),
            (false, ((true, 1), (true, 2))),
            (true, ((true, 2), (true, 3)))
        )
    );
}

#[test]
fn each_request_is_refused_in_turn(rt: HostRuntime) -> Result<(), Fail> {
    let mut refusals = 0u64;
    for nth in 1..100 {
        let refusing: Refusing<Global> = Refusing::new(rt.alloc(), nth);
        let outcome = lengths(&refusing);
        if !refusing.has_refused() {
            assert_eq!(rt; outcome?.as_slice(), [3, 5].as_slice());
            break;
        }
        assert!(rt; outcome.is_err(), "at {nth}");
        assert_eq!(rt; refusing.requests(), nth);
        refusals = nth;
    }
    assert_eq!(rt; refusals, 3);
    Ok(())
}

// What `refuse_each` reports for a run that allocates nothing.
#[test]
fn complaints(rt: HostRuntime) {
    let gives = (
        refuse_each(rt.alloc(), 0, &|_: &Refusing<Global>| Outcome::Right),
        refuse_each(rt.alloc(), 1, &|_: &Refusing<Global>| Outcome::Right),
        refuse_each(rt.alloc(), 0, &|_: &Refusing<Global>| Outcome::Wrong),
        refuse_each(rt.alloc(), 0, &|_: &Refusing<Global>| Outcome::OutOfMemory),
    );
    assert_eq!(rt;
        gives,
        (
            Ok(()),
            Err(Complaint::TooFew),
            Err(Complaint::WrongAnswer),
            Err(Complaint::NoRefusal)
        )
    );
}

fn asks<A: Allocator>(alloc: A) -> Outcome {
    match Vec::from_slice(alloc, &[1u8]) {
        Ok(bytes) => Outcome::of(bytes.as_slice() == [1].as_slice()),
        Err(_) => Outcome::OutOfMemory,
    }
}

// The second run asks again and again, so that it always meets a refusal.
#[test]
fn runs_without_end(rt: HostRuntime) {
    let outcome = refuse_each(rt.alloc(), 1, &|refusing: &Refusing<Global>| asks(refusing));
    assert_eq!(rt; outcome, Ok(()));
    let endless = refuse_each(
        rt.alloc(),
        1,
        &|refusing: &Refusing<Global>| {
            let mut outcome = Outcome::Right;
            for _ in 0..refusing.nth {
                outcome = asks(refusing);
            }
            outcome
        },
    );
    assert_eq!(rt; endless, Err(Complaint::Endless));
}

// Returns what `asks` returns, but a wrong answer when out of memory.
fn asks_and_forgets(refusing: &Refusing<Global>) -> Outcome {
    match asks(refusing) {
        Outcome::OutOfMemory => Outcome::Wrong,
        outcome => outcome,
    }
}

// The complete answer, whether out of memory or not.
fn asks_in_vain(refusing: &Refusing<Global>) -> Outcome {
    let _outcome = asks(refusing);
    Outcome::Right
}

// The same as `asks_and_forgets`, but only while the first request is refused.
fn forgets_at_first(refusing: &Refusing<Global>) -> Outcome {
    if refusing.nth == 1 {
        asks_and_forgets(refusing)
    } else {
        asks(refusing)
    }
}

#[test]
fn runs_that_meet_a_refusal_are_judged(rt: HostRuntime) {
    let judged = (
        refuse_each(rt.alloc(), 1, &asks_and_forgets),
        refuse_each(rt.alloc(), 1, &forgets_at_first),
        refuse_each(rt.alloc(), 1, &asks_in_vain),
    );
    let wrong = Err(Complaint::WrongAnswer);
    assert_eq!(rt; judged, (wrong, wrong, Ok(())));
}
