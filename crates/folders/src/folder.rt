//! A folder of files that outlive the program.

ghost use Rattle.std.specs.Prelude.{◌≡◌, ◌≢◌, ◌⊎◌, ◌≤◌, [], ℕ, Bool, true, false, List, Option, None, Some, Ok, Err, OnOk, OnErr, IfOk, IfSome};
ghost use Rattle.byte_output.specs.Failures.{Rises};
ghost use Rattle.folders.specs.Folder.{FolderModel, Narrows, Only, Stays, IsSettled, texts_of};
ghost use Rattle.folders.specs.Publishing.{IsWritten, Replaces};

use crate::faults::{CallFault, RenameFault};
use std::alloc::Allocator;
use std::io;
use std::io::Write;

/// A folder whose files outlive the program. Its model is what may be read under each name, and what a crash may leave
/// there: what was synced stays; what was not synced may be lost, torn or kept; a rename may be undone until the folder
/// is synced.
///
/// A call that fails returns `Device`, or `Memory` if an allocation was refused, and raises `faults`. It may have had its
/// effect, but for a rename of a file that is not there.
pub trait Folder {
    /// A new file that is being written.
    type File: Write + Drop;

    /// Whether folders of this type have a model. Without one only their faults are specified.
    ghost has_model: { Bool };

    /// What a folder may have.
    ghost model: { FolderModel Self };

    /// Whether a rename that fails leaves all names but the old one alone.
    ghost undoes_renames: { Bool };

    /// The number of calls that failed, saturating.
    ghost faults: { Self → ℕ };

    /// Whether there is a file under a name.
    fn contains(&mut self, name: &str) -> Result<bool, CallFault>
        ensures used { has_model ≡ true → result ≡ Ok true → (text : List ℕ) × model.reads self.old name.now (Some text) }
        ensures free { has_model ≡ true → result ≡ Ok false → model.reads self.old name.now None }
        ensures all { has_model ≡ true → (other : List ℕ) → Stays model self.old self.new other }
        ensures more { faults self.old ≤ faults self.new }
        ensures fault { OnErr result (Rises (faults self.old) (faults self.new)) };

    /// Removes the file under a name, if there is one.
    fn remove(&mut self, name: &str) -> Result<(), CallFault>
        ensures gone { has_model ≡ true → OnOk result (Only None (model.reads self.new name.now)) }
        ensures now { has_model ≡ true → (read : Option (List ℕ)) → model.reads self.new name.now read → model.reads self.old name.now read ⊎ (read ≡ None) }
        ensures others { has_model ≡ true → (other : List ℕ) → other ≢ name.now → Stays model self.old self.new other }
        ensures more { faults self.old ≤ faults self.new }
        ensures fault { OnErr result (Rises (faults self.old) (faults self.new)) };

    /// Creates a new, empty file under a name, with the permissions of the file under `target`, if there is one. Fails if
    /// the name is in use, so that an existing file is never written to.
    fn create_new(&mut self, name: &str, target: &str) -> Result<Self::File, CallFault>
        ensures empty { has_model ≡ true → IfOk result (λ file. Self.File.contents file ≡ Some []) }
        ensures others { has_model ≡ true → (other : List ℕ) → other ≢ name.now → Stays model self.old self.new other }
        ensures more { faults self.old ≤ faults self.new }
        ensures fault { OnErr result (Rises (faults self.old) (faults self.new)) };

    /// Closes a file that could not be written, which counts as a fault.
    fn abandon(&mut self, file: Self::File)
        ensures all { has_model ≡ true → (other : List ℕ) → Stays model self.old self.new other }
        ensures more { faults self.old ≤ faults self.new }
        ensures fault { Rises (faults self.old) (faults self.new) };

    /// Closes the file that was made under this name, once what was written to it is on the disk.
    fn sync(&mut self, name: &str, file: Self::File) -> Result<(), CallFault>
        ensures written { has_model ≡ true → OnOk result (IfSome (Self.File.contents file) (λ text. IsWritten model self.new name.now text)) }
        ensures others { has_model ≡ true → (other : List ℕ) → other ≢ name.now → Stays model self.old self.new other }
        ensures more { faults self.old ≤ faults self.new }
        ensures fault { OnErr result (Rises (faults self.old) (faults self.new)) };

    /// Renames the file under `from` to `to`, in place of the file there. Fails with `Gone` only if there is no file under
    /// `from`.
    fn rename(&mut self, from: &str, to: &str) -> Result<(), RenameFault>
        ensures moved { has_model ≡ true → OnOk result (Narrows (model.reads self.old from.now) (model.reads self.new to.now)) }
        ensures held { has_model ≡ true → OnOk result (Narrows (model.holds self.old from.now) (model.holds self.new to.now)) }
        ensures replaces { has_model ≡ true → (text : List ℕ) → IsWritten model self.old from.now text → Replaces model self.old self.new to.now text }
        ensures gone { has_model ≡ true → result ≡ Err RenameFault.Gone → (other : List ℕ) → other ≢ from.now → Stays model self.old self.new other }
        ensures failed { has_model ≡ true → undoes_renames ≡ true → OnErr result ((other : List ℕ) → other ≢ from.now → Stays model self.old self.new other) }
        ensures others { has_model ≡ true → (other : List ℕ) → other ≢ from.now → other ≢ to.now → Stays model self.old self.new other }
        ensures more { faults self.old ≤ faults self.new }
        ensures fault { OnErr result (Rises (faults self.old) (faults self.new)) };

    /// Waits until the names of the folder are on the disk.
    fn sync_folder(&mut self) -> Result<(), CallFault>
        ensures settled { has_model ≡ true → OnOk result ((name : List ℕ) (left : Option (List ℕ)) → model.leaves self.new name left → IsSettled (model.reads self.old name) (model.holds self.old name) left) }
        ensures all { has_model ≡ true → (other : List ℕ) → Stays model self.old self.new other }
        ensures more { faults self.old ≤ faults self.new }
        ensures fault { OnErr result (Rises (faults self.old) (faults self.new)) };

    /// The text of the file under a name, `None` if there is no file.
    fn read<A: Allocator>(&mut self, alloc: A, name: &str) -> Result<Option<Vec<u8, A>>, CallFault>
        ensures found { has_model ≡ true → IfOk result (λ found. model.reads self.old name.now (texts_of found)) }
        ensures all { has_model ≡ true → (other : List ℕ) → Stays model self.old self.new other }
        ensures more { faults self.old ≤ faults self.new }
        ensures fault { OnErr result (Rises (faults self.old) (faults self.new)) };

    /// What the system said of the call that failed last, if one has and that is known.
    fn last_error(&self) -> Option<io::Error>;
}
