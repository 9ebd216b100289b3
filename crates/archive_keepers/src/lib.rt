//! Keepers of a server's collections: over any folder, by whose calls a crash at any moment leaves the last collection or the
//! new one; over another keeper, with a limit, or with a rule on solutions; and one that keeps nothing.
//!
//! `FolderKeeper` keeps them in any folder of the crate `folders`, whose `specs/Folder.antt` says what that may have.
//! `specs/Limited.antt` has what a refusal makes of a keeper with a limit, and `specs/Readable.antt` which solutions stop Tile
//! World. README.md shows how the crate is called.
#![tactic(auto)]

mod collection_text;
mod counts;
mod drafts;
mod folder_keeper;
mod ghost_log;
mod limited;
mod names;
mod no_keeper;
mod readable;
mod replaced;
mod served_keeper;
mod stopping;

pub use counts::Counts;
pub use folder_keeper::FolderKeeper;
pub use limited::Limited;
pub use names::{draft_name, kept_name};
pub use no_keeper::NoKeeper;
pub use readable::Readable;
pub use replaced::Replaced;
pub use served_keeper::ServedKeeper;
