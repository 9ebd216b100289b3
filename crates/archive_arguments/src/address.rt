//! An IPv4 address, as it is written.

ghost use Rattle.std.specs.Prelude.{◌≡◌, ℕ, ◌+◌, ◌*◌, IfSome, IfNone, slice_index};
ghost use Rattle.archive_arguments.specs.Address.{IsAddress};

use std::net::Ipv4Addr;

/// An IPv4 address as a number. Its most significant byte is the first of the four numbers as they are written.
#[derive(Clone, Copy, Debug, PartialEq, Eq)]
pub struct Address {
    /// The number.
    pub host: u32,
}

// The number with these bytes, most significant byte first.
fn number_of(bytes: [u8; 4]) -> u32
    ensures { result ≡ ((slice_index bytes 0 * 256 + slice_index bytes 1) * 256 + slice_index bytes 2) * 256 + slice_index bytes 3 }
{
    u32::from_be_bytes(bytes)
}

impl Address {
    /// Reads an address: four decimal numbers from 0 to 255 without leading zeros, joined by dots. Returns `None` for
    /// any other text.
    pub fn read(text: &str) -> Option<Self>
        ensures some { IfSome result (λ address. IsAddress text.now address.host) }
        ensures none { IfNone result ((host : ℕ) → IsAddress text.now host → ⊥) }
    {
        match text.parse::<Ipv4Addr>() {
            Ok(address) => Some(Address {
                host: number_of(address.octets()),
            }),
            Err(_) => None,
        }
    }
}
