//! The server over any wire: one turn or round, and the loops over them.
//!
//! Read `specs/Turn.antt` first: which calls of the wire a turn makes, and which steps of the table. The crate's README shows
//! how it is called.
#![tactic(auto)]

mod change;
mod drop_cause;
mod limits;
mod mode;
mod next;
mod places;
mod policies;
mod putters;
mod serve;
mod server;
mod server_observer;
mod timer;
mod timers;
mod visit;

pub use drop_cause::DropCause;
pub use mode::Mode;
pub use next::Next;
pub use policies::Policies;
pub use putters::{PUTTERS, Putters};
pub use serve::{serve_rounds, serve_turns};
pub use server::Server;
pub use server_observer::ServerObserver;
pub use timer::Timer;
