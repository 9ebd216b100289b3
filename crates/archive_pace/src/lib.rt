//! Two policies of the server, each a wire round its wire: last blocks of files are handed out no faster than the server can
//! keep what they complete, and a peer that was never heard is not sent the first block again and again.
//!
//! Read `specs/Pace.antt` first: when a block may be taken. `specs/Unheard.antt` has the other policy. The crate's README shows
//! how it is called.
#![tactic(auto)]

mod held;
mod keep;
mod laws;
mod limits;
mod pace;
mod paced_wire;
mod queue;
mod sparing_wire;
mod unheard;

pub use keep::Keep;
pub use laws::{limit_values, worked_pace};
pub use limits::{HOSTS, PATIENCE, PAUSE, PRESENT, TRIES};
pub use pace::Pace;
pub use paced_wire::PacedWire;
pub use sparing_wire::SparingWire;
