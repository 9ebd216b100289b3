//! The command `serve` over the system: its sockets, its folders, its clock and its log. Read `src/serving.rt` first; the
//! crate's README shows how it is called.
#![tactic(auto)]

mod served_folder;
mod serving;

pub use serving::run_serve;
