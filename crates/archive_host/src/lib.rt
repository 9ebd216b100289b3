//! The system's folders.
//!
//! No clause can say what a file does. What is proved is that each call ends if the system's calls do, that failures are
//! counted, and which paths a folder uses. The rest is tested. README.md shows how the crate is called.
#![tactic(auto)]

mod dir_keeper;
mod file_match;
mod folder_path;
mod history_room;
mod host_file;
mod host_folder;
mod known_file;
mod recording_keeper;

pub use dir_keeper::DirKeeper;
pub use history_room::HistoryRoom;
pub use host_file::HostFile;
pub use host_folder::{HostFolder, OpenFault};
pub use recording_keeper::RecordingKeeper;
