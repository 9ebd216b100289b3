//! Lists of bytes, and writing a text of bytes to a writer: the definitions and lemmas that every crate above shares.
//! README.md has a caller, and what is proved.
//!
//! Read `specs/Output.antt` first: it defines what a call leaves written. `specs/Bytes.antt` defines which lists are
//! bytes, `specs/Printable.antt` how bytes of any value are shown, and `specs/Failures.antt` how a count of failures rises.
//! `proofs/` has the lemmas on the first two, and those on lists that more than one crate needs.
#![tactic(auto)]

mod buffer;
mod out_fault;
mod output;
mod printable;

pub use buffer::{Buffer, LARGE};
pub use out_fault::OutFault;
pub use output::put;
pub use printable::Printable;
