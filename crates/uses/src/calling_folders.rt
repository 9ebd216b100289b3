//! A caller of `folders`.

ghost use Rattle.std.specs.Prelude.{◌≡◌, codes, true};
ghost use Rattle.folders.specs.Publishing.{HasOnly};

use folders::{Contents, Folder, publish};

/// Publishes a file in a folder. Returns whether it is there for good.
pub fn put_file<F: Folder, C: Contents>(folder: &mut F, contents: &C) -> bool
    ensures { F.has_model ≡ true → result ≡ true → HasOnly F.model folder.new (codes "file") (C.text contents.now) }
{
    publish(folder, "file.new", "file", contents).is_ok()
}
