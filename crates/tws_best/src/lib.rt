//! The best solution of each level number and password, the collection of what is best so far, and snapshots of its
//! text. README.md has a caller, and what is proved.
//!
//! Read `specs/Best.antt` first: it defines what is best of a set, by the rank of a solution, and a collection's text.
//! `specs/Rank.antt` defines the rank, `specs/Frozen.antt` a snapshot.
//!
//! `merge` merges records part after part, and `changes` takes those that are better or undoes all; `text` writes a
//! collection; `bodies` are those of a collection, with the length of their records; `body` is what collections and
//! snapshots share; `block` is a block of a snapshot's text.
#![tactic(auto)]

mod block;
mod bodies;
mod body;
mod changes;
mod collection;
mod laws;
mod merge;
mod rank;
mod snapshot;
mod text;

pub use collection::Collection;
pub use laws::{
    best_of_best, collection_of_none, exactly_the_best, files_as_a_set, one_best, one_collection,
    one_more_text, one_rank, ranks_in_order, read_back, some_best, texts_as_a_set, ticks_in_body,
};
pub use merge::Merge;
pub use rank::Rank;
pub use snapshot::Snapshot;
