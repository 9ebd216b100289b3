//! The two ends of a TFTP transfer: the sender of a file, block by block, and the receiver. RFC 1350 section 2, with
//! RFC 1123 section 4.2.3.1. README.md has a caller, and what is proved.
//!
//! Read `specs/Ends.antt` first: it defines what each end keeps, and the effect of each call. `specs/Pair.antt` defines
//! what holds of two ends with any network between them, `specs/Chunks.antt` how a received file is stored in memory.
//! `proofs/Steps.antt` has what each step of one end keeps and sends, and `proofs/Holding.antt` what a receiver knows
//! of the file, for crates above.
#![tactic(auto)]

mod chunks;
mod laws;
mod limits;
mod received;
mod receiver;
mod recv_fault;
mod recv_state;
mod send_state;
mod sender;

pub use chunks::CHUNK_SIZE;
pub use laws::{joined_chunks, limit_values, one_pair, patience};
pub use limits::{DALLY, MAX_BLOCKS, MAX_FILE, MISSES};
pub use received::Received;
pub use receiver::Receiver;
pub use recv_fault::RecvFault;
pub use recv_state::RecvState;
pub use send_state::SendState;
pub use sender::Sender;
