//! Two solution files compared level by level, the solutions of one that are better, and a file without the solutions of
//! a level. README.md has a caller, and what is proved.
//!
//! Read `specs/Standing.antt` first: it defines how the best solutions of two files compare at one level.
//! `specs/Compare.antt` defines the comparison of two files and what of mine is better, `specs/Lines.antt` the text of a
//! comparison, and `specs/Without.antt` a file without the solutions of a level, and `specs/Password.antt` a password as listings show it.
#![tactic(auto)]

mod compare_fault;
mod comparing;
mod counts;
mod keys;
mod laws;
mod password;
mod removal;
mod row;
mod sides;
mod standing;
mod text;

pub use compare_fault::CompareFault;
pub use comparing::{better, compare};
pub use counts::Counts;
pub use laws::{
    better_is_enough, each_level_once, equal_bodies, exactly_the_level, other_levels_stay,
};
pub use password::password_shown;
pub use removal::without;
pub use row::Row;
pub use standing::Standing;
pub use text::{comparison_text, counts_text};
