//! Passwords on a page.

ghost use Rattle.std.specs.Prelude.{◌≡◌, Some};
ghost use Rattle.std.specs.List.{list_all};
ghost use Rattle.tws_pages.specs.Escaping.{is_printable, shown_password};

use crate::escaped_char::EscapedChar;
use std::fmt;
use tws_tables::HexByte;

fn is_printable(bytes: &[u8]) -> bool
    ensures { result ≡ list_all is_printable bytes.now }
{
    bytes.iter().all(|b| (b' '..=b'~').contains(b))
}

/// Displays a password as the text of a cell of a page: four characters of ASCII, escaped, or else an `x` and the bytes as
/// hexadecimal digits.
#[derive(Clone, Copy)]
pub(crate) struct PasswordCell(pub(crate) [u8; 4]);

impl fmt::Display for PasswordCell {
    ghost output = { λ p. Some (shown_password p.0) };

    fn fmt<W: fmt::Write>(&self, f: &mut fmt::Formatter<W>) -> fmt::Result {
        let [a, b, c, d] = self.0;
        if is_printable(&self.0) {
            let shown = |byte| EscapedChar(char::from(byte));
            write!(f, "{}{}{}{}", shown(a), shown(b), shown(c), shown(d))
        } else {
            write!(
                f,
                "x{}{}{}{}",
                HexByte(a),
                HexByte(b),
                HexByte(c),
                HexByte(d)
            )
        }
    }
}
