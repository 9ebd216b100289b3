//! The clients over any wire: one turn or round of a put or a get, and whole runs of them.
//!
//! Read `specs/Run.antt` first: which calls of the wire a turn of a client makes, and which steps of the client.
//! `specs/Rounds.antt` has the same for rounds, which go by the clock of the wire. README.md shows how the crate is called.
#![tactic(auto)]

mod laws;
mod limits;
mod pace;
mod run;
mod run_client;
mod run_fault;
mod runs;

pub use laws::limit_values;
pub use limits::{DALLY_LIMIT, DALLY_PAUSE};
pub use pace::Pace;
pub use run::{GetRun, PutRun, Run};
pub use run_client::RunClient;
pub use run_fault::RunFault;
pub use runs::{get_in_rounds, put_in_rounds, run_get, run_put};
