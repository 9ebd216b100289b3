//! The moves of a Tile World solution, and how bytes spell them. README.md has a caller, and what is proved.
//!
//! Read `specs/Spelling.antt` first: it defines what bytes spell (`Spells`). `specs/Shortest.antt` defines which
//! spellings are the shortest and which moves have none; `specs/Move.antt` defines moves and their ticks. The
//! definitions in `specs/Steps.antt` are only for private functions.
//!
//! `reading` and `counting` go from bytes to moves, by the fields of `layout`; `writing` goes from moves to bytes, by
//! `wait` and `piece`; `pack` goes from bytes to the fewest bytes, with the steps of `pending` that may share a byte.
#![tactic(auto)]

mod act;
mod counting;
mod laws;
mod layout;
mod moves;
mod moves_fault;
mod number;
mod pack;
mod pending;
mod piece;
mod reading;
mod spell_fault;
mod wait;
mod writing;

pub use act::Act;
pub use counting::check_moves;
pub use laws::{
    cut_or_spelled, moves_by_function, one_reading, packing, shortest_by_function,
    spelled_moves_are_timed, spelled_or_too_late, ticks_of_waits,
};
pub use moves::{Move, is_timed};
pub use moves_fault::MovesFault;
pub use pack::pack_moves;
pub use reading::read_moves;
pub use spell_fault::SpellFault;
pub use writing::write_moves;
