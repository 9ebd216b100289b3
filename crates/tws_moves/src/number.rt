//! Pieces read as little-endian numbers.

ghost use Rattle.std.specs.Prelude.{◌≡◌, ◌+◌, ◌<◌, ◌≤◌, ◌^◌, length, take};
ghost use Rattle.tws_moves.specs.Bytes.{number_of, bits};

use byteorder::{ByteOrder, LittleEndian};

// The bytes as one little-endian number.
pub(crate) fn number_of(bytes: &[u8]) -> u64
    requires { length bytes.now ≤ 5 }
    ensures number { result ≡ number_of bytes.now }
    ensures bound { result < 2 ^ 40 }
{
    let mut number = 0;
    let mut index = bytes.len();
    while index > 0 {
        index -= 1;
        number = 256 * number + u64::from(bytes[index]);
    }
    number
}

// The first `count` bytes as one little-endian number. If there are eight bytes, they are read at once: a loop with a
// varying number of iterations is often mispredicted, and slower.
pub(crate) fn number_of_first(bytes: &[u8], count: usize) -> u64
    requires short { count ≤ 5 }
    requires within { count ≤ length bytes.now }
    ensures number { result ≡ number_of (take count bytes.now) }
    ensures bound { result < 2 ^ 40 }
{
    if bytes.len() < 8 {
        return number_of(&bytes[..count]);
    }
    bits(0, 8 * count as u32, LittleEndian::read_u64(bytes))
}

// The `count` bits of `number` from bit `low` on.
pub(crate) fn bits(low: u32, count: u32, number: u64) -> u64
    requires { low + count < 64 }
    ensures { result ≡ bits low count number }
{
    (number >> low) % (1 << count)
}
