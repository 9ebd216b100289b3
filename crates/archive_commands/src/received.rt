//! A collection that was fetched into memory, and whether it is one.

ghost use Rattle.std.specs.Prelude.{OnOk, IfOk, IfErr};
ghost use Rattle.archive_commands.specs.Get.{FetchesFile, IsOf, JudgeFault, ReceiveFault};

use crate::limits::ROUNDS;
use crate::run_fault::of_run;
use crate::transfer_wire::TransferWire;
use archive_runs::{GetRun, get_in_rounds};
use command_line::ToolFault;
use std::alloc::Global;
use tftp_packet::Endpoint;
use tws_file::{FileFault, Ruleset};
use tws_reader::read_file;

/// A collection that was fetched.
#[derive(Drop)]
pub(crate) struct Received {
    pub(crate) bytes: Vec<u8>,
    /// How many bytes these are.
    pub(crate) len: u64,
    /// The run that fetched them, which is to dally.
    pub(crate) run: GetRun,
}

// Whether the bytes are a solution file of this ruleset.
fn judge(alloc: Global, bytes: &[u8], ruleset: Ruleset) -> Result<(), ToolFault>
    ensures is { OnOk result (IsOf «ruleset» bytes.now) }
    ensures fault { IfErr result (JudgeFault «ruleset» bytes.now) }
{
    match read_file(alloc, bytes) {
        Ok(file) => {
            if file.ruleset == ruleset {
                return Ok(());
            }
            let fault = FileFault::BadRuleset(file.ruleset.code());
            Err(ToolFault::Unreadable { index: 0, fault })
        }
        Err(fault) => Err(ToolFault::of_input(0, fault)),
    }
}

/// Fetches the collection of this ruleset from the archive into memory, in at most `ROUNDS` rounds.
///
/// # Errors
///
/// `Socket` if no port was opened, and `Transfer` with the cause of the failed transfer. `Unreadable` with index 0 and the
/// fault of what was fetched, `BadRuleset` with its code if it is a file of the other ruleset. `Memory` if an allocation
/// was refused.
pub(crate) fn receive<N: TransferWire>(
    wire: &mut N,
    alloc: Global,
    server: Endpoint,
    ruleset: Ruleset,
) -> Result<Received, ToolFault>
    ensures fetched { IfOk result (λ r. FetchesFile server «ruleset» (r.len, r.run) r.bytes.items (N.calls wire.old) (N.calls wire.new)) }
    ensures fails { IfErr result (ReceiveFault server «ruleset» (N.calls wire.old) (N.calls wire.new)) }
{
    let mut bytes = Vec::new(alloc);
    let fetched = get_in_rounds(alloc, wire, server, ruleset, ROUNDS, &mut bytes);
    wire.finish();
    match fetched {
        Ok((len, run)) => match judge(alloc, &bytes, ruleset) {
            Ok(()) => Ok(Received { bytes, len, run }),
            Err(fault) => Err(fault),
        },
        Err(fault) => Err(of_run(fault)),
    }
}
