//! What a page asks of solution files in memory: a text of one file or of two, or why there is none. README.md has a
//! caller, and what is proved.
//!
//! Read `specs/Answers.antt` first: it defines the answers, the faults, and the faults in words.
//!
//! `one` has the texts of one file, `both` those of two.
#![tactic(auto)]

mod both;
mod one;
mod web_fault;

pub use both::{best, better, compared};
pub use one::{csv, packed, page};
pub use web_fault::WebFault;
