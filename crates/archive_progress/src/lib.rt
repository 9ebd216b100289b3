//! How far a transfer has come, shown on a terminal: on one line, drawn again and again, and erased at the end.
//!
//! Read `specs/Text.antt` first: it has the line. `specs/Tally.antt` says what is counted, and when the line is drawn. The
//! crate's README shows how it is called.
#![tactic(auto)]

mod drawing;
mod laws;
mod limits;
mod progress;
mod progress_wire;
mod tally;

pub use laws::{limit_values, worked_line};
pub use limits::{DELAY, PAUSE};
pub use progress_wire::ProgressWire;
