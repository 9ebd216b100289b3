//! A file that is opened by its name.

ghost use Rattle.std.specs.Prelude.{◌≡◌, OnOk, OnErr, IfOk, IfErr};
ghost use Rattle.command_line.specs.Printing.{ReportsFile};
ghost use Rattle.system_files.specs.Files.{CanOpen, CannotOpen};

use crate::reporting::report_file;
use crate::tool_fault::ToolFault;
use std::io::Write;
use system_files::FileSystem;

/// Opens the file of this name, to be read from its start. If it cannot be opened, that and the system's cause are reported by
/// this name, and the status is returned.
pub fn open_named<S: FileSystem, E: Write>(
    system: &S,
    name: &str,
    errors: &mut E,
) -> Result<S::File, u8>
    ensures opened { IfOk result (λ file. S.File.remaining file ≡ S.bytes_of system.now name.now) }
    ensures can { OnOk result (CanOpen (S.opens_of system.now name.now)) }
    ensures cannot { IfErr result (λ status. (status ≡ 2) × CannotOpen (S.opens_of system.now name.now)) }
    ensures silent { OnOk result (errors.new ≡ errors.old) }
    ensures printed { OnErr result (ReportsFile ToolFault.Read name.now (E.contents errors.old) (E.contents errors.new)) }
{
    match system.open(name) {
        Ok(file) => Ok(file),
        Err(cause) => Err(report_file(ToolFault::Read, name, &cause, errors)),
    }
}
