//! What the servers, clients and networks of several archives do is what archives do in `archive_mirrors`: so its laws hold
//! of the collections that the servers have.
//!
//! Read `specs/Worlds.antt`, then `specs/Syncs.antt`. There is nothing to call: each function is a law.
#![tactic(auto)]

mod laws;

pub use laws::{joining, syncing};
