//! What the test crates share: endpoints, datagrams and files, all written by hand, and the generator of the drawn runs.
//!
//! It is for tests alone, and takes nothing from the code under test but the type of an endpoint.
#![tactic(auto)]

mod datagrams;
mod draws;
mod endpoints;
mod files;

pub use datagrams::{
    ACK_0, ACK_1, ACK_2, BUSY, DATA_EMPTY_LYNX, DATA_EMPTY_MS, DATA_HUNDRED, DATA_NINETY,
    DATA_UNREADABLE, FILE_TOO_LONG, NOT_KEPT, OUT_OF_MEMORY, RRQ_LYNX, RRQ_MS, UNKNOWN_TRANSFER,
    WRQ, whole_block,
};
pub use draws::Draws;
pub use endpoints::{
    ALICE, BOB, CAROL, DAVE, FOURTH_PEER, PEER, SECOND_PEER, SERVER, THIRD_PEER, at, client,
};
pub use files::{CUT_MOVE, EMPTY_LYNX, EMPTY_MS, HUNDRED, NINETY, UNREADABLE, join, record, steps};
