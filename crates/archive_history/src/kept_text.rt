//! What a history keeps of a file: all but its pads.

ghost use Rattle.std.specs.Prelude.{◌≡◌, ◌<◌, ◌≤◌, ◌+◌, ◌-◌, ◌++◌, length, take, drop, slice_index, OnOk, IfOk};
ghost use Rattle.std.specs.Io.KnownBytes.{Appends};
ghost use Rattle.byte_output.specs.Output.{Sends};
ghost use Rattle.archive_history.specs.Kept.{record_length, header_length, without_pads};
ghost use Rattle.archive_history.specs.Steps.{Passes};

use byte_output::{Buffer, OutFault, put};
use byteorder::{ByteOrder, LittleEndian};
use folders::Contents;
use std::alloc::Allocator;
use std::io::Write;
use tftp_ends::{CHUNK_SIZE, Received};

// The length of a header without further bytes, and the place of the byte that says how many there are.
const HEADER: usize = 8;

const EXTRA: usize = 7;

// The length of a size field. A record that has nothing else is a pad.
const FIELD: usize = 4;

// How many bytes are written together, however short the records between two pads are.
const GATHERED: usize = 1 << 14;

/// What a history keeps of a file that was taken. It is written from the file's chunks, so nothing is allocated.
#[derive(Drop)]
pub(crate) struct KeptText<'a, A: Allocator> {
    pub(crate) file: &'a Received<A>,
}

impl<'a, A: Allocator> Contents for KeptText<'a, A> {
    ghost text = { λ t. without_pads t.file.now };

    fn write_to<W: Write>(&self, out: &mut W) -> Result<(), OutFault> {
        write_kept(self.file, out)
    }
}

// The length of a file.
fn length_of<A: Allocator>(file: &Received<A>) -> usize
    ensures { result ≡ length file.now }
{
    file.len() as usize
}

// The byte at a place.
fn byte_at<A: Allocator>(file: &Received<A>, at: usize) -> u8
    requires { at < length file.now }
    ensures { result ≡ slice_index file.now at }
{
    let chunk = file.chunk(at / CHUNK_SIZE);
    chunk[at % CHUNK_SIZE]
}

// The bytes from one place up to another, as far as they are in the chunk of the first.
fn piece_at<A: Allocator>(file: &Received<A>, at: usize, to: usize) -> &[u8]
    requires before { at < to }
    requires within { to ≤ length file.now }
    ensures piece { result.now ≡ take (length result.now) (drop at file.now) }
    ensures some { 1 ≤ length result.now }
    ensures most { at + length result.now ≤ to }
{
    let chunk = file.chunk(at / CHUNK_SIZE);
    let rest = &chunk[at % CHUNK_SIZE..];
    let count = rest.len().min(to - at);
    &rest[..count]
}

// Sends the bytes from one place up to another.
fn send_range<A: Allocator, W: Write>(
    file: &Received<A>,
    from: usize,
    to: usize,
    buffer: &mut Buffer<GATHERED>,
    out: &mut W,
) -> Result<(), OutFault>
    requires before { from ≤ to }
    requires within { to ≤ length file.now }
    ensures { OnOk result (Sends (W.contents out.old) (W.contents out.new) (buffer.old ++ take (to - from) (drop from file.now)) buffer.new) }
{
    let mut at = from;
    while at < to {
        let piece = piece_at(file, at, to);
        buffer.send(piece, out)?;
        at += piece.len();
    }
    Ok(())
}

// Where the records begin.
fn header_length<A: Allocator>(file: &Received<A>) -> usize
    ensures { result ≡ header_length file.now }
{
    if EXTRA < length_of(file) {
        HEADER + usize::from(byte_at(file, EXTRA))
    } else {
        HEADER
    }
}

// The length of the record at a place, by its size alone; `None` if there is none or it is cut.
fn record_length<A: Allocator>(file: &Received<A>, at: usize) -> Option<usize>
    ensures { result ≡ record_length (drop at file.now) }
{
    let rest = length_of(file).saturating_sub(at);
    if rest < FIELD {
        return None;
    }
    let field = [
        byte_at(file, at),
        byte_at(file, at + 1),
        byte_at(file, at + 2),
        byte_at(file, at + 3),
    ];
    let size = FIELD + LittleEndian::read_u32(&field) as usize;
    if rest < size { None } else { Some(size) }
}

// Passes the record from one place up to another. If it is a pad, all that waits before it is sent; otherwise it waits too.
// Returns where what waits begins.
fn pass_record<A: Allocator, W: Write>(
    file: &Received<A>,
    begun: usize,
    at: usize,
    after: usize,
    buffer: &mut Buffer<GATHERED>,
    out: &mut W,
) -> Result<usize, OutFault>
    requires begun { begun ≤ at }
    requires some { at ≤ after }
    requires within { after ≤ length file.now }
    ensures begins { IfOk result (λ next. next ≤ after) }
    ensures passes { IfOk result (λ next. Passes (W.contents out.old) (W.contents out.new) buffer.old buffer.new file.now begun at after next) }
{
    if after - at != FIELD {
        return Ok(begun);
    }
    send_range(file, begun, at, buffer, out)?;
    Ok(after)
}

// Writes what is kept of a file.
fn write_kept<A: Allocator, W: Write>(file: &Received<A>, out: &mut W) -> Result<(), OutFault>
    ensures { OnOk result (Appends (W.contents out.old) (W.contents out.new) (without_pads file.now)) }
{
    let mut buffer = Buffer::new();
    let end = length_of(file);
    let mut begun = 0;
    let mut at = header_length(file);
    while let Some(size) = record_length(file, at) {
        let after = at + size;
        begun = pass_record(file, begun, at, after, &mut buffer, out)?;
        at = after;
    }
    send_range(file, begun, end, &mut buffer, out)?;
    put(out, buffer.as_slice())
}
