//! The model: a server, its clients and the network between them, and what each event does to them. The main theorem of
//! `archive_theorem` speaks of it.
//!
//! Read `specs/World.antt` first: what a world is, what has happened in it, and what each event does. `Restarts` has
//! what a keeper has after each step, and `Adding` what the laws say. There is nothing to call: each function is a law.
#![tactic(auto)]

mod laws;

pub use laws::{event_law, server_values};
