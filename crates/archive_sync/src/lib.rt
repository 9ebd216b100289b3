//! What two archives, or a file and an archive, have of a ruleset, fetched over any wire, and what of it is better than what
//! the other one has.
//!
//! Read `specs/News.antt` first, then `specs/Fetching.antt`. README.md shows how the crate is called.
#![tactic(auto)]

mod fetching;
mod news;
mod news_fault;
mod planning;
mod sending;
mod sync_fault;

pub use fetching::{fetch_news, fetch_news_of, fetch_text};
pub use news::News;
pub use news_fault::NewsFault;
pub use planning::plan;
pub use sending::put_part;
pub use sync_fault::SyncFault;
