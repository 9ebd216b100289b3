//! The running archive: the turns of a server and of its clients, each over its own wire, are a run of the world that
//! the headline is about. docs/HEADLINE.md states what this adds.
//!
//! Read `specs/Archive.antt` first: what runs, how it moves, and what a network brings. `Members` has what each turn is
//! in the world, and `Calls` how whole calls are made of moves.
#![tactic(auto)]

mod laws;

pub use laws::{calls_law, running_law, starts_law};
