//! Standard error, where a terminal may show it.

ghost use Rattle.std.specs.Prelude.{◌≡◌, ◌≤◌, true, length, None};
ghost use Rattle.std.specs.Io.{WritesAtMost};
ghost use Rattle.std.specs.Io.KnownBytes.{WriteAppends};
ghost use Rattle.tws_tool.specs.Visible.{is_hidden, plain_length, written};

use std::io;
use std::io::Write;

/// A writer of messages, with names in them that may have any characters. If a terminal shows them, control characters are
/// written as question marks, except for those that end lines; of U+0080 to U+009F the second byte is. In all else it is the
/// stream below.
#[derive(Drop)]
pub struct VisibleErrors<W> {
    stream: W,
    to_terminal: bool,
}

// The first byte in UTF-8 of U+0080 to U+00BF.
const BEGINS_CONTROL: u8 = 0xc2;

// Whether a byte is part of a control character: of one of ASCII that does not end a line, or the second one of U+0080 to
// U+009F, which it may be `after` some byte.
fn is_hidden(after: bool, byte: u8) -> bool
    ensures { result ≡ is_hidden after byte }
{
    byte < 32 && byte != b'\n' || byte == 127 || after && (128..160).contains(&byte)
}

// How many bytes stand before the first one that is hidden. What was written before them is not known.
#[tactic(auto, using(crate::proofs::Seeing::plain_is))]
fn plain_bytes(bytes: &[u8]) -> usize
    ensures plain { result ≡ plain_length true bytes.now }
    ensures within { result ≤ length bytes.now }
{
    let mut after = true;
    for i in 0..bytes.len() {
        if is_hidden(after, bytes[i]) {
            return i;
        }
        after = bytes[i] == BEGINS_CONTROL;
    }
    bytes.len()
}

impl<W: Write> VisibleErrors<W> {
    /// The same stream, which may be a terminal.
    pub fn new(stream: W, to_terminal: bool) -> Self
        ensures stream { result.stream ≡ stream }
        ensures terminal { result.to_terminal ≡ to_terminal }
    {
        VisibleErrors {
            stream,
            to_terminal,
        }
    }
}

impl<W: Write> Write for VisibleErrors<W> {
    ghost contents = { λ _. None };

    #[tactic(auto, using(crate::proofs::Seeing::shown_plain, crate::proofs::Seeing::shown_first))]
    fn write(&mut self, buf: &[u8]) -> io::Result<usize>
        ensures bound { WritesAtMost result buf.now }
        ensures shown { WriteAppends (W.contents self.old.stream) (W.contents self.new.stream) result (written self.old.to_terminal buf.now) }
        ensures terminal { self.new.to_terminal ≡ self.old.to_terminal }
    {
        if !self.to_terminal {
            return self.stream.write(buf);
        }
        let plain = plain_bytes(buf);
        if plain < buf.len() && plain == 0 {
            self.stream.write(b"?")
        } else {
            self.stream.write(&buf[..plain])
        }
    }

    fn flush(&mut self) -> io::Result<()> {
        self.stream.flush()
    }
}
