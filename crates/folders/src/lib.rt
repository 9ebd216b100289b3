//! Folders whose files outlive the program, and how a file is published in one: whole, or not at all.
//!
//! Read `specs/Folder.antt` first: what a folder may have under each name, now and after a crash. `specs/Publishing.antt`
//! has what `publish` makes of a name. README.md shows how the crate is called.
#![tactic(auto)]

mod contents;
mod faults;
mod folder;
mod memory_folder;
mod publishing;

pub use contents::Contents;
pub use faults::{CallFailed, CallFault, FolderCall, PublishFault, RenameFault};
pub use folder::Folder;
pub use memory_folder::MemoryFolder;
pub use publishing::{clear_draft, publish};
