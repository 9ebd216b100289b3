//! A text as a line.

ghost use Rattle.std.specs.Prelude.{◌≡◌, ◌++◌, [], ◌∷◌, OnOk, string_bytes};

use std::alloc::AllocError;

/// Adds a text as a line.
pub(crate) fn push_words(text: &mut String, words: &str) -> Result<(), AllocError>
    ensures { OnOk result (string_bytes text.new ≡ string_bytes text.old ++ (words.now ++ 10 ∷ [])) }
{
    writeln!(text, "{words}")
}
