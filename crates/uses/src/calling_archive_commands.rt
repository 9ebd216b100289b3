//! A caller of `archive_commands`.

ghost use Rattle.std.specs.Prelude.{OnOk, Some};
ghost use Rattle.archive_commands.specs.Put.{Puts};
ghost use Rattle.archive_arguments.specs.declared.limits.TheConstants.{PORT};

use archive_arguments::PORT;
use archive_commands::{TransferWire, put_file};
use command_line::ToolFault;
use std::alloc::Global;
use std::io::Write;
use tftp_packet::Endpoint;

/// Sends the bytes of a solution file to the archive at this host, at its usual port, over any wire, and writes a line
/// with their number.
pub fn send<N: TransferWire, W: Write>(
    alloc: Global,
    bytes: &[u8],
    wire: &mut N,
    host: u32,
    out: &mut W,
) -> Result<(), ToolFault>
    ensures { OnOk result (Puts (Some bytes.now) (record { host = host; port = PORT }) (N.calls wire.old) (N.calls wire.new) (W.contents out.old) (W.contents out.new)) }
{
    let mut input = bytes;
    put_file(alloc, &mut input, wire, Endpoint { host, port: PORT }, out)
}
