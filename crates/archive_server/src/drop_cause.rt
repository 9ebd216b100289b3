//! Why a request was dropped.

/// Why a request was dropped.
#[derive(Clone, Copy, Debug, PartialEq, Eq)]
pub enum DropCause {
    /// Its host has as many transfers as it may have.
    ManyTransfers,
    /// As many transfers are live as may have lists of collections so large.
    LargeCollection,
    /// Its host may not put.
    NotPutter,
}
