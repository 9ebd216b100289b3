//! A caller of `system_files`.

ghost use Rattle.std.specs.Prelude.{◌≡◌, IfOk};

use std::io;
use system_files::FileSystem;

/// Opens a file of a system whose files have known bytes, or of the system itself.
pub fn input_of<S: FileSystem>(system: &S, name: &str) -> io::Result<S::File>
    ensures { IfOk result (λ file. S.File.remaining file ≡ S.bytes_of system.now name.now) }
{
    system.open(name)
}
