//! When the last blocks of hosts may be taken.

// Worked by hand from the rule: a pause of as much time as the keep took, four times as much for its host, 1.5 seconds at most,
// and none once no other host was heard for a second. Times are in microseconds.
use archive_pace::{Keep, Pace};
use std::test::Fail;

const FIFTH: u64 = 5_000_000;

fn keep_of(host: u32, ended: u64, took: u64) -> Keep {
    Keep { host, ended, took }
}

// When blocks of hosts 1, 2 and 3 may be taken after a keep for host 1 that ended at the fifth second, if these hosts were heard
// last.
fn moments(took: u64, first: (u32, u64), second: (u32, u64)) -> (u64, u64, u64) {
    let mut pace = Pace::new();
    pace.note(keep_of(1, FIFTH, took));
    pace.hear(first.0, first.1);
    pace.hear(second.0, second.1);
    (pace.moment(1), pace.moment(2), pace.moment(3))
}

#[test]
fn pauses_after_a_keep(rt: HostRuntime) -> Result<(), Fail> {
    let own = (1, FIFTH);
    assert_eq!(rt;
        moments(100_000, (2, FIFTH), own),
        (5_400_000, 5_100_000, 5_100_000)
    );
    assert_eq!(rt;
        moments(100_000, (2, 4_300_000), own),
        (5_300_000, 5_100_000, 5_100_000)
    );
    assert_eq!(rt;
        moments(100_000, (2, 3_000_000), own),
        (FIFTH, 5_100_000, 5_100_000)
    );
    assert_eq!(rt;
        moments(3_000_000, own, (2, 5_900_000)),
        (6_500_000, 6_000_000, 6_500_000)
    );
    Ok(())
}

// When the last keep of the first, the second and the last of 65 hosts ended: the first is forgotten.
fn lasts() -> (u64, u64, u64) {
    let mut pace = Pace::new();
    for host in 1..66_u32 {
        pace.note(keep_of(host, u64::from(host), 1));
    }
    (pace.last_of(1), pace.last_of(2), pace.last_of(65))
}

#[test]
fn the_oldest_keep_is_forgotten(rt: HostRuntime) -> Result<(), Fail> {
    assert_eq!(rt; lasts(), (0, 2, 65));
    Ok(())
}
