//! Characters as text in HTML.

ghost use Rattle.std.specs.Prelude.{Some};
ghost use Rattle.tws_pages.specs.Escaping.{escaped_char};

use std::fmt;

/// Displays a character as text in HTML.
#[derive(Clone, Copy)]
pub(crate) struct EscapedChar(pub(crate) char);

impl fmt::Display for EscapedChar {
    ghost output = { λ c. Some (escaped_char c.0) };

    fn fmt<W: fmt::Write>(&self, f: &mut fmt::Formatter<W>) -> fmt::Result {
        match self.0 {
            '<' => f.write_str("&lt;"),
            '>' => f.write_str("&gt;"),
            '&' => f.write_str("&amp;"),
            '"' => f.write_str("&quot;"),
            '\'' => f.write_str("&#39;"),
            other => f.write_char(other),
        }
    }
}
