//! An allocator over memory that the caller gives away: blocks are cut from its front, and what is given back is not used
//! again. README.md has a caller, and what is proved.
//!
//! Read `specs/Ground.antt` first: it defines what a region owns.
//!
//! `ground` is memory in which nothing lies; `region` is ground with its size, as a host passes it; `arena` is the
//! allocator.
#![tactic(auto)]

mod arena;
mod ground;
mod region;

pub use arena::Arena;
pub use ground::Ground;
pub use region::Region;
