//! Reports of an address that cannot be used.

ghost use Rattle.std.specs.Prelude.{◌≡◌};
ghost use Rattle.command_line.specs.Printing.{Printed};
ghost use Rattle.archive_arguments.specs.Address.{address_hint, bad_address_lines};

use command_line::{USAGE, print_about, print_words};
use std::io::Write;

// What helps with an address that cannot be used: a port after a colon is the first that many try.
fn hint_of(address: &str) -> &'static str
    ensures { result.now ≡ address_hint address.now }
{
    let colons = address.bytes().filter(|byte| *byte == b':').count();
    if colons == 0 {
        ""
    } else if colons == 1 {
        "; --port gives the port"
    } else {
        "; only IPv4 is used"
    }
}

/// Reports an address that cannot be used, with the reason in a second line, and returns the status.
pub fn bad_address<E: Write>(address: &str, reason: &str, errors: &mut E) -> u8
    ensures status { result ≡ 1 }
    ensures printed { Printed (bad_address_lines address.now reason.now) (E.contents errors.old) (E.contents errors.new) }
{
    let hint = hint_of(address);
    print_words("bad address", errors);
    print_about(address, format_args!("{reason}{hint}"), errors);
    USAGE
}
