//! What sends and receives datagrams: ports that the archive opens, sends from and receives at, and a clock.
//!
//! Read `specs/Wire.antt` first: the ghost log of a wire's calls. README.md shows how the crate is called.
#![tactic(auto)]

mod laws;
mod limits;
mod ready_wire;
mod sending;
mod wire;
mod wire_fault;

pub use laws::limit_values;
pub use limits::{QUIET_TURNS, TIMEOUT};
pub use ready_wire::{Ready, ReadyWire};
pub use sending::send;
pub use wire::{RECEIVE_SIZE, Wire};
pub use wire_fault::WireFault;
