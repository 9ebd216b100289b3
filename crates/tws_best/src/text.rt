//! The text of the best solutions.

ghost use Rattle.std.specs.Prelude.{◌≡◌, ◌++◌, length, IfErr, OnOk, OnErr};
ghost use Rattle.std.specs.List.{flat_map};
ghost use Rattle.std.specs.BTreeMap.{values};
ghost use Rattle.std.specs.Io.KnownBytes.{Appends};
ghost use Rattle.byteorder.specs.Endian.{little_bytes};
ghost use Rattle.byte_output.specs.Output.{Sends, AppendsPrefix};
ghost use Rattle.tws_best.specs.Best.{body_text, collection_header};

use crate::bodies::BodyMap;
use crate::body::Body;
use byte_output::{Buffer, LARGE, OutFault, put};
use byteorder::{ByteOrder, LittleEndian};
use std::alloc::Allocator;
use std::io::Write;
use tws_file::{Ruleset, SIGNATURE};

// The four bytes of a record's size.
pub(crate) fn size_bytes<A: Allocator>(body: &Body<A>) -> [u8; 4]
    ensures { result ≡ little_bytes 4 (length body.now) }
{
    let mut bytes = [0; 4];
    LittleEndian::write_u32(&mut bytes, body.size());
    bytes
}

// The header of a collection's text.
pub(crate) fn header_bytes(ruleset: Ruleset) -> [u8; 8]
    ensures { result ≡ collection_header «ruleset» }
{
    let [a, b, c, d] = SIGNATURE;
    [a, b, c, d, ruleset.code(), 0, 0, 0]
}

// Sends one record.
fn send_body<A: Allocator, W: Write>(
    buffer: &mut Buffer<LARGE>,
    body: &Body<A>,
    out: &mut W,
) -> Result<(), OutFault>
    ensures ok { OnOk result (Sends (W.contents out.old) (W.contents out.new) (buffer.old ++ body_text body.now) buffer.new) }
    ensures err { OnErr result (AppendsPrefix (W.contents out.old) (W.contents out.new) (buffer.old ++ body_text body.now)) }
    ensures io { IfErr result (λ e. e ≡ OutFault.Io) }
{
    buffer.send(&size_bytes(body), out)?;
    buffer.send(body.as_slice(), out)
}

// Sends a record for each body, in the order of the keys.
fn send_bodies<A: Allocator, W: Write>(
    buffer: &mut Buffer<LARGE>,
    best: &BodyMap<A>,
    out: &mut W,
) -> Result<(), OutFault>
    ensures ok { OnOk result (Sends (W.contents out.old) (W.contents out.new) (buffer.old ++ flat_map body_text (values best.now)) buffer.new) }
    ensures err { OnErr result (AppendsPrefix (W.contents out.old) (W.contents out.new) (buffer.old ++ flat_map body_text (values best.now))) }
    ensures io { IfErr result (λ e. e ≡ OutFault.Io) }
{
    for body in best.values() {
        send_body(buffer, body, out)?;
    }
    Ok(())
}

// Writes a header, and a record for each body.
pub(crate) fn write_parts<A: Allocator, W: Write>(
    ruleset: Ruleset,
    best: &BodyMap<A>,
    out: &mut W,
) -> Result<(), OutFault>
    ensures ok { OnOk result (Appends (W.contents out.old) (W.contents out.new) (collection_header «ruleset» ++ flat_map body_text (values best.now))) }
    ensures err { OnErr result (AppendsPrefix (W.contents out.old) (W.contents out.new) (collection_header «ruleset» ++ flat_map body_text (values best.now))) }
    ensures io { IfErr result (λ e. e ≡ OutFault.Io) }
{
    let mut buffer = Buffer::new();
    buffer.send(&header_bytes(ruleset), out)?;
    send_bodies(&mut buffer, best, out)?;
    put(out, buffer.as_slice())
}
