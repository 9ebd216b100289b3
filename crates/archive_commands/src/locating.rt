//! The host that the text of a server's address leads to.

ghost use Rattle.std.specs.Prelude.{◌≡◌};
ghost use Rattle.archive_commands.specs.Locating.{Locates, has_letter};

use crate::resolver::Resolver;
use archive_arguments::Address;

// Whether a text has a letter, so that it is a name.
fn has_letter(text: &str) -> bool
    ensures { result ≡ has_letter text.now }
{
    text.bytes().any(|byte| byte.is_ascii_alphabetic())
}

/// The host that a text leads to, if it leads to one: a text with a letter is the name of a host, and any other is an
/// address.
pub(crate) fn locate<S: Resolver>(system: &S, text: &str) -> Option<u32>
    ensures { Locates (S.host_of system.now) text.now result }
{
    if has_letter(text) {
        system.look_up(text)
    } else {
        let address = Address::read(text)?;
        Some(address.host)
    }
}
