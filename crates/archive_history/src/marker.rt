//! The marker of a copy: a file beside it, named by the checksum of its bytes, that has its name. By it the same bytes are
//! found again, however many copies a day has.

ghost use Rattle.std.specs.Prelude.{◌≡◌, ◌≤◌, ℕ, List, true, IfOk, IfSome, string_bytes};
ghost use Rattle.std.specs.List.{list_all};
ghost use Rattle.folders.specs.Folder.{Stays};
ghost use Rattle.archive_history.specs.Markers.{IsMarker, is_name_byte, is_copy_name, marker_of, name_in_day};

use folders::{Contents, Folder};
use sha2::{Digest, Sha256};
use std::alloc::{AllocError, Allocator};
use std::io;
use std::io::Write;

// The length of a checksum.
const DIGEST: usize = 32;

// A writer that takes the checksum of what it is given.
#[derive(Drop)]
struct Hashing {
    hasher: Sha256,
}

impl Write for Hashing {
    fn write(&mut self, buf: &[u8]) -> io::Result<usize> {
        self.hasher.update(buf);
        Ok(buf.len())
    }

    fn flush(&mut self) -> io::Result<()> {
        Ok(())
    }
}

// The SHA-256 of a text.
fn digest_of<C: Contents>(text: &C) -> [u8; DIGEST] {
    let mut hashing = Hashing {
        hasher: Sha256::new(),
    };
    // This writer takes all bytes. The checksum only names a marker: the copies are compared.
    let _ = text.write_to(&mut hashing);
    hashing.hasher.finalize()
}

/// The name of the marker of a text, from the folder of its day on.
///
/// # Errors
///
/// Out of memory.
pub(crate) fn marker_of<A: Allocator + Copy, C: Contents>(
    alloc: A,
    day: &str,
    text: &C,
) -> Result<String<A>, AllocError>
    ensures { IfOk result (λ marker. IsMarker day.now (string_bytes marker)) }
{
    let digits = hex::encode(alloc, digest_of(text).as_slice())?;
    format!(in alloc; "{day}/.{digits}")
}

// Whether a byte may stand in the name of a copy: a digit, a letter, a dash or a dot.
fn is_name_byte(byte: u8) -> bool
    ensures { result ≡ is_name_byte byte }
{
    byte.is_ascii_alphanumeric() || byte == b'-' || byte == b'.'
}

fn has_name_bytes(name: &[u8]) -> bool
    ensures { result ≡ list_all is_name_byte name.now }
{
    name.iter().all(|byte| is_name_byte(*byte))
}

// Whether a name is one that a copy can have in the folder of its day: so it has no slash.
fn is_copy_name(name: &str) -> bool
    ensures { result ≡ is_copy_name name.now }
{
    has_name_bytes(name.as_bytes()) && name.as_bytes().ends_with(b".tws")
}

// The name that a marker has, if it has one that a copy can have.
fn marked_name<F: Folder, A: Allocator + Copy>(
    alloc: A,
    folder: &mut F,
    marker: &str,
) -> Option<String<A>>
    ensures name { IfSome result (λ name. is_copy_name (string_bytes name) ≡ true) }
    ensures same { F.has_model ≡ true → (other : List ℕ) → Stays F.model folder.old folder.new other }
    ensures more { F.faults folder.old ≤ F.faults folder.new }
{
    let Ok(Some(bytes)) = folder.read(alloc, marker) else {
        return None;
    };
    let Ok(name) = String::from_utf8(bytes) else {
        return None;
    };
    if is_copy_name(name.as_str()) {
        Some(name)
    } else {
        None
    }
}

/// The copy that a marker names, from the folder of its day on; `None` if there is no marker, it has no name that a copy can
/// have, or there is no memory for the name.
pub(crate) fn marked_copy<F: Folder, A: Allocator + Copy>(
    alloc: A,
    folder: &mut F,
    day: &str,
    marker: &str,
) -> Option<String<A>>
    ensures name { IfSome result (λ copy. (name : List ℕ) × (is_copy_name name ≡ true) × (string_bytes copy ≡ name_in_day day.now name)) }
    ensures same { F.has_model ≡ true → (other : List ℕ) → Stays F.model folder.old folder.new other }
    ensures more { F.faults folder.old ≤ F.faults folder.new }
{
    let name = marked_name(alloc, folder, marker)?;
    let Ok(copy) = format!(in alloc; "{day}/{name}") else {
        return None;
    };
    Some(copy)
}
