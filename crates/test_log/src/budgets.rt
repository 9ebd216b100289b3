//! Which lines of refused and dropped requests are left out.

use archive_log::LineBudget;
use std::test::Fail;

// How many of so many lines are admitted that are asked for from this moment on, one in each millisecond.
fn admitted(budget: &mut LineBudget, from: u64, count: u64) -> u64 {
    let mut found: u64 = 0;
    for i in 0..count {
        if budget.admit(from.saturating_add(i)) {
            found = found.saturating_add(1);
        }
    }
    found
}

// Of a thousand lines from the middle of a second on, ten are admitted in each of the two seconds. The others are reported once
// the last of these is over, once.
#[test]
fn ten_lines_a_second(rt: HostRuntime) -> Result<(), Fail> {
    let mut budget = LineBudget::new();
    let begun = admitted(&mut budget, 4500, 500);
    let soon = budget.take_by(4999);
    let more = admitted(&mut budget, 5000, 500);
    let early = budget.take_by(5999);
    let late = budget.take_by(6000);
    let again = budget.take_by(6000);
    let next = admitted(&mut budget, 6000, 11);
    let last = budget.take();
    assert_eq!(rt;
        [begun, soon, more, early, late, again, next, last],
        [10, 0, 10, 0, 980, 0, 10, 1]
    );
    Ok(())
}
