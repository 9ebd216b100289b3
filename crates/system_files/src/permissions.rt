//! Which permissions a new file gets.

ghost use Rattle.std.specs.Prelude.{◌≡◌, bit_and, IfSome};
ghost use Rattle.std.specs.Fs.{metadata_mode, permissions_mode};

use std::fs::{Metadata, Permissions};
use std::os::unix::fs::{MetadataExt, PermissionsExt};

// Who may read, write and run a file. The other bits of a mode would let its program run with the rights of its owner.
const ACCESS: u32 = 0o777;

/// The permissions that a new file is to get in place of an old one: those of the old one, but never with a setuid, setgid
/// or sticky bit. `None` if the old one has another owner: then the new file keeps those that it was made with.
pub fn permissions_kept(old: &Metadata, new: &Metadata) -> Option<Permissions>
    ensures { IfSome result (λ kept. permissions_mode kept ≡ bit_and (metadata_mode old.now) 0o777) }
{
    if old.uid() != new.uid() {
        return None;
    }
    Some(Permissions::from_mode(old.mode() & ACCESS))
}
