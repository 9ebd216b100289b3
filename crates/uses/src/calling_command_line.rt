//! A caller of `command_line`.

ghost use Rattle.std.specs.Prelude.{◌≡◌, IfSome};
ghost use Rattle.command_line.specs.Arguments.{IsNumberUpTo};
ghost use Rattle.command_line.specs.Faults.{answer_status};

use command_line::{Source, ToolFault, finish, number_up_to};
use std::io::Write;
use std::slice;

/// The port that a text is the number of.
pub fn port_of(text: &str) -> Option<u16>
    ensures { IfSome result (IsNumberUpTo 65535 text.now) }
{
    let number = number_up_to(text, 65535)?;
    Some(number as u16)
}

/// Ends a command of one input, which was read from this source: reports why it failed, if it did, and returns the status.
pub fn end<E: Write>(done: Result<(), ToolFault>, source: &Source, errors: &mut E) -> u8
    ensures { result ≡ answer_status done }
{
    match source {
        Source::Standard => finish(done, &[], errors),
        Source::Named(name) => finish(done, slice::from_ref(name), errors),
    }
}
