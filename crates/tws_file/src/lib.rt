//! Tile World solution files (TWS): what a file is, its text, its packed form, and which fault other bytes have. README.md
//! has a caller, and what is proved.
//!
//! Read `specs/Text.antt` first: it defines which values have a text, and which text. `specs/Fault.antt` defines the fault
//! of bytes that are not a file's text. The definitions in `specs/Steps.antt` are only for private functions.
//!
//! `tws_file` and `solution` check which values have a text. `writing` writes the text; `packing` makes the packed file.
//! `ruleset` and `upload_name` have the names of files at a server, `password` and `in_words` a password and a fault as text.
#![tactic(auto)]

mod bytes;
mod fields;
mod file_fault;
mod hex;
mod in_words;
mod key;
mod laws;
mod packing;
mod password;
mod record;
mod records;
mod ruleset;
mod signature;
mod solution;
mod tws_file;
mod upload_name;
mod writing;

pub use byte_output::OutFault;
pub use bytes::Bytes;
pub use file_fault::FileFault;
pub use in_words::InWords;
pub use key::Key;
pub use laws::{one_file, one_file_name, packed_files};
pub use packing::pack;
pub use password::Password;
pub use record::Record;
pub use records::Records;
pub use ruleset::Ruleset;
pub use signature::SIGNATURE;
pub use solution::Solution;
pub use tws_file::TwsFile;
pub use upload_name::upload_file_name;
pub use writing::write_file;
