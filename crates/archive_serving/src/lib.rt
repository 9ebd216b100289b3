//! The command `serve`: what it is asked for, and a server at work over any wire and keeper.
//!
//! Read `specs/Serve.antt` first. The crate's README shows how it is called.
#![tactic(auto)]

mod host_list;
mod laws;
mod limits;
mod policies;
mod port_range;
mod ports;
pub mod serve;
mod service;
mod turn_limit;

pub use laws::limit_values;
pub use limits::{HISTORY, LEAST_PORTS, PER_HOST, TURNS};
pub use ports::Ports;
pub use serve::ServeArguments;
pub use service::Service;
pub use turn_limit::TurnLimit;
