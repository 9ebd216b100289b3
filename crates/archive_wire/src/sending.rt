//! What a step gives to a wire.

ghost use Rattle.archive_wire.specs.Wire.{SendsOut};

use crate::wire::Wire;
use tftp_packet::Out;

/// Sends the datagram of a step, if there is one. A failure is a loss.
pub fn send<W: Wire>(wire: &mut W, out: &Option<Out>)
    ensures { SendsOut out.now (W.calls wire.old) (W.calls wire.new) }
{
    match out {
        Some(out) => {
            let _ = wire.send(out);
        }
        None => {}
    }
}
