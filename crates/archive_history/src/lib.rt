//! The history of an archive: a folder of the crate `folders` with each solution file that was taken, by day.
//!
//! Read `specs/History.antt` first: the names of such a file, and what it is that one was added. `specs/Kept.antt` has what is
//! kept of it, and `specs/Markers.antt` by what it is found again. The definitions in `specs/Steps.antt` are only for private
//! functions. README.md shows how the crate is called.
#![tactic(auto)]

mod history;
mod history_fault;
mod history_folder;
mod kept_text;
mod laws;
mod marker;
mod matching;
mod names;
mod record_outcome;
mod stamp;

pub use history::{NAMES, record};
pub use history_fault::HistoryFault;
pub use history_folder::HistoryFolder;
pub use laws::kept_files;
pub use record_outcome::RecordOutcome;
pub use stamp::Stamp;
