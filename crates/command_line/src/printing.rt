//! The lines that are printed on standard error.

ghost use Rattle.std.specs.Prelude.{◌++◌, OnOk, OnErr, IfSome};
ghost use Rattle.std.specs.Io.KnownBytes.{Appends};
ghost use Rattle.byte_output.specs.Output.{AppendsPrefix};
ghost use Rattle.command_line.specs.Printing.{Prints, line_about, plain_line};

use arrayvec::ArrayString;
use byte_output::{OutFault, put};
use std::fmt::{Display, Write as _};
use std::io::Write;

// How many bytes the words of a line have at most.
const WORDS: usize = 256;

// Writes a text, and then another one.
fn put_two<E: Write>(first: &str, second: &str, errors: &mut E) -> Result<(), OutFault>
    ensures ok { OnOk result (Appends (E.contents errors.old) (E.contents errors.new) (first.now ++ second.now)) }
    ensures err { OnErr result (AppendsPrefix (E.contents errors.old) (E.contents errors.new) (first.now ++ second.now)) }
{
    put(errors, first.as_bytes())?;
    put(errors, second.as_bytes())
}

// Writes a line.
fn put_words<E: Write>(words: &str, errors: &mut E) -> Result<(), OutFault>
    ensures ok { OnOk result (Appends (E.contents errors.old) (E.contents errors.new) (plain_line words.now)) }
    ensures err { OnErr result (AppendsPrefix (E.contents errors.old) (E.contents errors.new) (plain_line words.now)) }
{
    put(errors, "tws: ".as_bytes())?;
    put_two(words, "\n", errors)
}

// Writes a line about something.
fn put_about<E: Write>(name: &str, words: &str, errors: &mut E) -> Result<(), OutFault>
    ensures ok { OnOk result (Appends (E.contents errors.old) (E.contents errors.new) (line_about name.now words.now)) }
    ensures err { OnErr result (AppendsPrefix (E.contents errors.old) (E.contents errors.new) (line_about name.now words.now)) }
{
    put_two("tws: ", name, errors)?;
    put(errors, ": ".as_bytes())?;
    put_two(words, "\n", errors)
}

/// Prints `tws: WORDS`, where these words have at most 256 bytes, as far as the writer takes it.
pub fn print_words<D: Display + Drop, E: Write>(words: D, errors: &mut E)
    ensures { IfSome (D.output words) (λ text. Prints (plain_line text) (E.contents errors.old) (E.contents errors.new)) }
{
    let mut text = ArrayString::<WORDS>::new();
    if write!(text, "{words}").is_ok() {
        // There is nowhere left to report that this failed.
        let _ = put_words(text.as_str(), errors);
    }
}

/// Prints `tws: NAME: WORDS`, where these words have at most 256 bytes, as far as the writer takes it.
pub fn print_about<D: Display + Drop, E: Write>(name: &str, words: D, errors: &mut E)
    ensures { IfSome (D.output words) (λ text. Prints (line_about name.now text) (E.contents errors.old) (E.contents errors.new)) }
{
    let mut text = ArrayString::<WORDS>::new();
    if write!(text, "{words}").is_ok() {
        let _ = put_about(name, text.as_str(), errors);
    }
}
