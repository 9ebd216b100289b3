//! The server's table: each call takes one datagram or one time-out, changes the state, and returns at most one
//! datagram to send.
//!
//! Read `specs/Table.antt` first: what a server is, and what each call does to it. `specs/Events.antt` says what a step
//! did. README.md shows how the crate is called.
#![tactic(auto)]

mod collections;
mod end;
mod file_merge;
mod incoming;
mod keep_fault;
mod keeper;
mod keeping;
mod keys;
mod laws;
mod limits;
mod load;
mod load_fault;
mod observer;
mod ports;
mod published;
mod step;
mod step_event;
mod table;
mod taken;
mod transfer;

pub use keep_fault::KeepFault;
pub use keeper::Keeper;
pub use laws::limit_values;
pub use limits::LIVE;
pub use load_fault::LoadFault;
pub use observer::{NoObserver, Observer};
pub use step::Step;
pub use step_event::{FailureCause, Merged, StepEvent};
pub use table::Table;
pub use taken::Taken;
