//! Archives that sync with one another by the ordinary get and put: whatever is delayed, repeated or lost, each collection
//! is the best over texts that came from outside, and those that stand for the same texts are the same bytes.
//!
//! Read `specs/Archives.antt` first: what mirrors are, and what may happen. `specs/Reaching.antt` says what reaches an
//! archive. There is nothing to call: each function is a law.
#![tactic(auto)]

mod laws;

pub use laws::{
    absorption, convergence, durable, never_worse, nothing_to_put, possible, reaching, safety,
};
