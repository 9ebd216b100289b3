//! Why a transfer of a command failed.

ghost use Rattle.std.specs.Prelude.{◌≡◌};
ghost use Rattle.archive_commands.specs.Faults.{run_fault};

use archive_runs::RunFault;
use command_line::ToolFault;

/// The command's fault for a fault of a transfer.
pub(crate) fn of_run(fault: RunFault) -> ToolFault
    ensures { result ≡ run_fault fault }
{
    match fault {
        RunFault::Socket => ToolFault::Socket,
        RunFault::Transfer(why) => ToolFault::Transfer(why),
        // A put writes nothing, and a get into memory, where a write fails only if that runs out.
        RunFault::Memory | RunFault::Write => ToolFault::Memory,
    }
}
