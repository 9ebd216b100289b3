//! Files by their names.

ghost use Rattle.std.specs.Prelude.{◌≡◌, ℕ, Bool, List, Option, OnOk, OnErr, IfOk, IfSome, map, option_map, string_bytes};
ghost use Rattle.system_files.specs.Files.{CanOpen, CannotOpen, Keeps, Publishes};

use crate::unlisted::Unlisted;
use std::io;
use std::io::{Read, Write};

/// Opens files by their names, and replaces them. It may have ghost contents for each; that of the system has none.
pub trait FileSystem {
    /// A file that is open to be read.
    type File: Read + Drop;

    /// What is to become the contents of a file.
    type Draft: Write + Drop;

    /// The bytes of the file with a name, if they are known.
    ghost bytes_of: { Self → List ℕ → Option (List ℕ) };

    /// The contents of a draft that was just begun for a name, if they are known.
    ghost drafted_of: { Self → List ℕ → Option (List ℕ) };

    /// Whether the file of a name can be opened, if that is known.
    ghost opens_of: { Self → List ℕ → Option Bool };

    /// The names of the solution files below the folder of a name, or nothing if it is no folder's, if that is known.
    ghost below_of: { Self → List ℕ → Option (Option (List (List ℕ))) };

    /// Opens the file of this name, to be read from its start.
    ///
    /// # Errors
    ///
    /// Fails if there is no such file, or it cannot be opened, as a folder.
    fn open(&self, name: &str) -> io::Result<Self::File>
        ensures opened { IfOk result (λ file. Self.File.remaining file ≡ bytes_of self.now name.now) }
        ensures can { OnOk result (CanOpen (opens_of self.now name.now)) }
        ensures cannot { OnErr result (CannotOpen (opens_of self.now name.now)) };

    /// The names of the solution files below the folder of this name, those of each folder in order; `None` if it is no
    /// folder's, also if there is nothing of this name.
    ///
    /// # Errors
    ///
    /// `Folder` if this folder or one below it cannot be listed, `Memory` if an allocation was refused.
    fn files_below(&self, name: &str) -> Result<Option<Vec<String>>, Unlisted>
        ensures { IfOk result (λ found. IfSome (below_of self.now name.now) (λ known. option_map (λ files. map string_bytes files.items) found ≡ known)) };

    /// Begins what is to become the contents of the file of this name. If there is no such file it is created, and is
    /// empty; otherwise it stays as it is.
    ///
    /// # Errors
    ///
    /// Fails if the file cannot be written, or no draft can be made. No file changes.
    fn begin(&mut self, name: &str) -> io::Result<Self::Draft>
        ensures begun { IfOk result (λ draft. Self.Draft.contents draft ≡ drafted_of self.old name.now) }
        ensures kept { Keeps (bytes_of self.old) (bytes_of self.new) };

    /// Puts a draft in place of what the file of this name had. The draft was begun for that name.
    ///
    /// # Errors
    ///
    /// What the system reports. The file stays as it is, unless it is not a regular one (see `System`).
    fn publish(&mut self, name: &str, draft: Self::Draft) -> io::Result<()>
        ensures published { OnOk result (Publishes name.now (Self.Draft.contents draft) (bytes_of self.old) (bytes_of self.new)) }
        ensures kept { OnErr result (Keeps (bytes_of self.old) (bytes_of self.new)) };

    /// Drops a draft. The file that it was begun for stays as it is, unless it is not a regular one. Returns the system's
    /// error of the last write into the draft that failed, if there is one and it is known.
    fn abandon(&mut self, draft: Self::Draft) -> Option<io::Error>
        ensures { Keeps (bytes_of self.old) (bytes_of self.new) };
}
