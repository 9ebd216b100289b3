//! The files of the system by their names, over which a command is written once for these and for files in memory; and a stream
//! that keeps why its last call failed. README.md has a caller, and what is proved.
//!
//! `specs/Files.antt` says how files change.
#![tactic(auto)]

mod draft_file;
mod file_system;
mod permissions;
mod solution_files;
mod system;
mod system_draft;
mod unlisted;
mod with_last_error;

pub use file_system::FileSystem;
pub use permissions::permissions_kept;
pub use system::{System, SystemFile};
pub use system_draft::SystemDraft;
pub use unlisted::Unlisted;
pub use with_last_error::WithLastError;
