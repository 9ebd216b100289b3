//! The fields of a record as bytes, each appended to a buffer.

ghost use Rattle.std.specs.Prelude.{◌≡◌, ◌+◌, ◌≤◌, ◌++◌, length};
ghost use Rattle.byteorder.specs.Endian.{little_bytes};
ghost use Rattle.tws_file.specs.Fields.{key_bytes};

use crate::key::Key;
use byte_output::Buffer;
use byteorder::{ByteOrder, LittleEndian};

// Appends a number in two bytes.
fn push_u16<const N: usize>(buffer: &mut Buffer<N>, number: u16)
    requires { length buffer.old + 2 ≤ N }
    ensures { buffer.new ≡ buffer.old ++ little_bytes 2 number }
{
    let mut bytes = [0; 2];
    LittleEndian::write_u16(&mut bytes, number);
    buffer.push(&bytes);
}

// Appends a number in four bytes.
pub(crate) fn push_u32<const N: usize>(buffer: &mut Buffer<N>, number: u32)
    requires { length buffer.old + 4 ≤ N }
    ensures { buffer.new ≡ buffer.old ++ little_bytes 4 number }
{
    let mut bytes = [0; 4];
    LittleEndian::write_u32(&mut bytes, number);
    buffer.push(&bytes);
}

// Appends a key's number and password.
pub(crate) fn push_key<const N: usize>(buffer: &mut Buffer<N>, key: Key)
    requires { length buffer.old + 6 ≤ N }
    ensures { buffer.new ≡ buffer.old ++ key_bytes key }
{
    push_u16(buffer, key.number);
    buffer.push(&key.password);
}
