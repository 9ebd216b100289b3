//! Files, and the texts of their faults.

// The texts of faults that no command prints, and the body of a solution.
use std::alloc::Global;
use std::fmt::Display;
use std::test::Fail;
use test_samples::HUNDRED;
use tws_file::{OutFault, Record, Solution, TwsFile, write_file};
use tws_moves::{MovesFault, SpellFault};
use tws_reader::read_file;

// Whether a fault is displayed as this text.
fn is_shown_as<T: Display + Copy>(alloc: Global, fault: T, text: &str) -> Result<bool, Fail> {
    Ok(format!(in alloc; "{fault}")?.as_str() == text)
}

#[test]
fn texts_of_faults(rt: HostRuntime) -> Result<(), Fail> {
    let cut = MovesFault::Cut { at: 4_294_967_294 };
    let late = SpellFault::TooLate { index: 7 };
    assert!(rt; is_shown_as(rt.alloc(), cut, "Cut(4294967294)")?);
    assert!(rt; is_shown_as(rt.alloc(), MovesFault::Memory, "Memory")?);
    assert!(rt; is_shown_as(rt.alloc(), late, "TooLate(7)")?);
    assert!(rt; is_shown_as(rt.alloc(), SpellFault::Memory, "Memory")?);
    assert!(rt; is_shown_as(rt.alloc(), OutFault::Io, "Io")?);
    assert!(rt; is_shown_as(rt.alloc(), OutFault::Memory, "Memory")?);
    Ok(())
}

// Whether these bytes are what is written for a file.
pub(crate) fn is_written_as(alloc: Global, file: &TwsFile, wanted: &[u8]) -> bool {
    let mut out = Vec::new(alloc);
    write_file(file, &mut out).is_ok() && out.as_slice() == wanted
}

// Whether these bytes are the body of a solution.
fn has_body(alloc: Global, solution: &Solution, wanted: &[u8]) -> bool {
    match solution.body(alloc) {
        Ok(body) => {
            body.as_slice() == wanted && u64::from(solution.body_len()) == wanted.len() as u64
        }
        Err(_) => false,
    }
}

#[test]
fn the_body_of_a_solution(rt: HostRuntime) -> Result<(), Fail> {
    let text = HUNDRED.as_slice();
    let file = read_file(rt.alloc(), text)?;
    let is_body = match file.records.as_slice() {
        [Record::Solution(solution)] => has_body(rt.alloc(), solution, &text[12..]),
        _ => false,
    };
    assert!(rt; is_body);
    Ok(())
}
