//! The path of a file in a folder.

ghost use Rattle.std.specs.Prelude.{◌≡◌, IfOk, string_bytes};
ghost use Rattle.std.specs.Path.{path_bytes, path_join};

use std::alloc::{AllocError, Global};
use std::path::{Path, PathBuf};

// The most bytes of a name whose path is made without allocating.
const ROOM: usize = 126;

/// The path of a file in a folder, which is made anew for each name.
#[derive(Drop)]
pub(crate) struct FolderPath {
    dir: String,
    path: PathBuf,
}

impl FolderPath {
    /// A path in this folder.
    ///
    /// # Errors
    ///
    /// Out of memory.
    pub(crate) fn new(alloc: Global, dir: &str) -> Result<Self, AllocError>
        ensures { IfOk result (λ path. string_bytes path.dir ≡ dir.now) }
    {
        let mut path = PathBuf::with_capacity(alloc, dir.len())?;
        path.reserve(ROOM)?;
        let dir = String::from_str(alloc, dir)?;
        Ok(FolderPath { dir, path })
    }

    /// The folder's own path.
    pub(crate) fn dir(&self) -> Path<'_> {
        Path::new(self.dir.as_str())
    }

    /// The path of the file with this name.
    ///
    /// # Errors
    ///
    /// Out of memory for a name of more than 126 bytes.
    #[tactic(auto, using(crate::proofs::Paths::join_empty))]
    pub(crate) fn of(&mut self, name: &str) -> Result<Path<'_>, AllocError>
        ensures path { IfOk result (λ path. path_bytes path ≡ path_join (string_bytes self.old.dir) name.now) }
    {
        self.path.clear();
        self.path.push(self.dir.as_str())?;
        self.path.push(name)?;
        Ok(self.path.as_path())
    }
}
