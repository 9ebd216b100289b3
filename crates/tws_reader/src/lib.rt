//! Reading solution files: from bytes, whole or in pieces, to a file or the fault that the bytes have. README.md has a
//! caller, and what is proved.
//!
//! Read `specs/Reader.antt` first: it defines what a reader of pieces has taken. The definitions in `specs/Steps.antt` are
//! only for private functions.
//!
//! `reader` reads a whole file, by `part_reader`, which hands out the records that a piece completes, and that by `header`
//! and `reading`.
#![tactic(auto)]

mod header;
mod laws;
mod part_reader;
mod reader;
mod reading;

pub use laws::{one_fault, text_or_fault, text_without_fault};
pub use part_reader::PartReader;
pub use reader::{Reader, read_file};
