//! A caller of `archive_arguments`.

ghost use Rattle.std.specs.Prelude.{◌≡◌, IfErr, IfOk};
ghost use Rattle.archive_arguments.specs.Address.{IsAddress};

use archive_arguments::{Address, bad_address};
use std::io::Write;

/// The host of an address, or the status after a report that it is none.
pub fn host_of<E: Write>(text: &str, errors: &mut E) -> Result<u32, u8>
    ensures host { IfOk result (IsAddress text.now) }
    ensures status { IfErr result (λ status. status ≡ 1) }
{
    match Address::read(text) {
        Some(address) => Ok(address.host),
        None => Err(bad_address(text, "not an IPv4 address", errors)),
    }
}
