//! A folder with a folder for each day.

ghost use Rattle.std.specs.Prelude.{◌≡◌, ◌≢◌, ◌≤◌, ℕ, List, true, Some, OnOk, OnErr};
ghost use Rattle.byte_output.specs.Failures.{Rises};
ghost use Rattle.folders.specs.Folder.{Only, Stays};
ghost use Rattle.folders.specs.Memory.{memory_model};

use crate::matching::Matching;
use byte_output::put;
use folders::{CallFault, Contents, Folder, MemoryFolder};

/// The folder of a history, in which each day has a folder: the names of its files begin with its name and a slash.
pub trait HistoryFolder: Folder {
    /// Whether the folder of this day is open.
    ghost is_open: { Self → List ℕ → Type 0 };

    /// Opens the folder of this day, which is made if there is none; its name is on the disk then. From then on
    /// `sync_folder` waits for the names in it.
    fn open_day(&mut self, day: &str) -> Result<(), CallFault>
        ensures opened { OnOk result (is_open self.new day.now) }
        ensures all { Self.has_model ≡ true → (other : List ℕ) → Stays Self.model self.old self.new other }
        ensures more { Self.faults self.old ≤ Self.faults self.new }
        ensures fault { OnErr result (Rises (Self.faults self.old) (Self.faults self.new)) };

    /// Whether the file under a name can be read, and has exactly these bytes.
    fn has_text<C: Contents>(&mut self, name: &str, text: &C) -> bool
        ensures same { Self.has_model ≡ true → result ≡ true → Self.model.reads self.old name.now (Some (C.text text.now)) }
        ensures all { Self.has_model ≡ true → (other : List ℕ) → Stays Self.model self.old self.new other }
        ensures more { Self.faults self.old ≤ Self.faults self.new };

    /// Writes a short file under a name, in place of one that is there. A crash may lose it or cut it.
    fn write_short(&mut self, name: &str, text: &str) -> Result<(), CallFault>
        ensures written { Self.has_model ≡ true → OnOk result (Only (Some text.now) (Self.model.reads self.new name.now)) }
        ensures others { Self.has_model ≡ true → (other : List ℕ) → other ≢ name.now → Stays Self.model self.old self.new other }
        ensures more { Self.faults self.old ≤ Self.faults self.new }
        ensures fault { OnErr result (Rises (Self.faults self.old) (Self.faults self.new)) };
}

/// In memory each name is in the same folder.
impl HistoryFolder for MemoryFolder {
    ghost is_open = { λ _ _. Unit {0} };

    fn open_day(&mut self, day: &str) -> Result<(), CallFault> {
        match self.contains(day) {
            Ok(_) => Ok(()),
            Err(fault) => Err(fault),
        }
    }

    fn has_text<C: Contents>(&mut self, name: &str, text: &C) -> bool {
        match self.contains(name) {
            Ok(true) => has_text_in(self, name, text),
            _ => false,
        }
    }

    fn write_short(&mut self, name: &str, text: &str) -> Result<(), CallFault> {
        self.remove(name)?;
        let mut file = self.create_new(name, name)?;
        match put(&mut file, text.as_bytes()) {
            Ok(()) => self.sync(name, file),
            Err(_) => {
                self.abandon(file);
                Err(CallFault::Memory)
            }
        }
    }
}

// Whether the file under a name has these bytes.
fn has_text_in<C: Contents>(folder: &MemoryFolder, name: &str, text: &C) -> bool
    ensures { result ≡ true → memory_model.reads folder.now name.now (Some (C.text text.now)) }
{
    let Some(file) = folder.file(name) else {
        return false;
    };
    let mut matching = Matching::new(file);
    match text.write_to(&mut matching) {
        Ok(()) => matching.has_all(file),
        Err(_) => false,
    }
}
