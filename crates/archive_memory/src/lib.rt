//! A keeper and a wire in memory, for tests.
//!
//! Read `specs/MemoryWires.antt` first: the plain value of a wire in memory, and what each call makes of it. README.md shows
//! how the crate is called.
#![tactic(auto)]

mod arrival;
mod entry;
mod kept;
mod memory_keeper;
mod memory_wire;

pub use entry::Entry;
pub use kept::Kept;
pub use memory_keeper::MemoryKeeper;
pub use memory_wire::MemoryWire;
