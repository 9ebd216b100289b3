//! What became of a file that was to be added to the history.

/// What became of a file that was to be added to the history.
#[derive(Clone, Copy, Debug, PartialEq, Eq)]
pub enum RecordOutcome {
    /// A copy was added.
    Added,
    /// The same bytes are there from that day: nothing was added.
    Known,
}
