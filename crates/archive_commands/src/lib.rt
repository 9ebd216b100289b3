//! The commands of the archive's clients over any wire: what `put`, `get` and `sync` are asked for, and what they do.
//!
//! Read `specs/Lines.antt` first, then `specs/Put.antt`, `specs/Get.antt` and `specs/Sync.antt`. The crate's README shows
//! how it is called.
#![tactic(auto)]

mod arguments;
mod file_bytes;
pub mod get;
mod labels;
mod laws;
mod limits;
mod line;
mod locating;
mod network;
pub mod put;
mod put_better;
mod put_files;
mod reached;
mod received;
mod reporting;
mod resolver;
mod run_fault;
mod stopping;
pub mod sync;
mod sync_part;
mod sync_reporting;
mod syncing;
mod target;
mod transfer_wire;
mod whole_file;

pub use get::{GetArguments, GetFault, get_file};
pub use laws::limit_values;
pub use limits::ROUNDS;
pub use network::Network;
pub use put::{PutArguments, put_file};
pub use reached::Reached;
pub use resolver::Resolver;
pub use sync::SyncArguments;
pub use target::Target;
pub use transfer_wire::TransferWire;
