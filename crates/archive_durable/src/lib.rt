//! Crashes: whatever a crash at any moment leaves in the folder of a server's keeper loads, and holds all that was promised.
//!
//! Read `specs/Crashes.antt`: what each event of a run does to the folder. `keep` ties this to the keeper that a server
//! has; `crash_law` is the theorem.
#![tactic(auto)]

mod keeping;
mod laws;

pub use keeping::{clear_drafts, keep, load};
pub use laws::{crash_law, perfect_folder};
