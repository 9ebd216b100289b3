//! A replay of a list of events on the real table and clients: it has the outcome that the theorem of archive_theorem
//! speaks of. docs/HEADLINE.md states the promise and why it holds.
//!
//! Read `specs/World.antt` of archive_model first: what a world is, and what each event does to it. Then here
//! `Outcomes` has the outcome of a run, and `Replays` what a replay guarantees. README.md shows how `replay` is called.
#![tactic(auto)]

mod answered;
mod asked;
mod begun;
mod datagram;
mod event;
mod event_fault;
mod event_steps;
mod events;
mod first_texts;
mod got_file;
mod laws;
mod machine;
mod op;
mod op_kind;
mod opening;
mod outcome;
mod refusing_keeper;
mod replay_fault;
mod running;
mod schedule;
mod seat;
mod seats;
mod server_endpoint;
mod taken_file;
mod world_fault;

pub use archive_model::{event_law, server_values};
pub use archive_theorem::{
    effects_law, folder_law, network_law, own_ports, restart_law, sample_runs, trace_law,
};
pub use asked::Asked;
pub use datagram::Datagram;
pub use event::Event;
pub use got_file::GotFile;
pub use laws::empty_keeper;
pub use op::Op;
pub use op_kind::OpKind;
pub use opening::Opening;
pub use outcome::Outcome;
pub use replay_fault::ReplayFault;
pub use schedule::{replay, replay_from};
pub use server_endpoint::SERVER;
pub use taken_file::TakenFile;
pub use world_fault::WorldFault;
