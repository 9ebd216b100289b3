//! What the page in a browser calls: each function is given memory, one file or two, and a room for the answer. README.md
//! says what a host owes, and what is proved.
//!
//! Read `specs/Delivery.antt` first: it defines what a call leaves.
#![tactic(auto)]

mod delivery;
pub mod exports;
