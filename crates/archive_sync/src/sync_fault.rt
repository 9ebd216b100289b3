//! Why what two archives have was not compared.

use crate::news_fault::NewsFault;
use archive_runs::RunFault;

/// Why what two archives have of a ruleset was not fetched, or not compared.
#[derive(Clone, Copy, Debug, PartialEq, Eq)]
pub enum SyncFault {
    /// The first one's collection was not fetched.
    From(RunFault),
    /// The second one's was not.
    To(RunFault),
    /// Both were, and they cannot be compared.
    News(NewsFault),
}
