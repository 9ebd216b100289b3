//! How many ports time out at a time, and when a transfer may give way.

use archive_table::LIVE;
use tftp_ends::MISSES;

/// How many time-outs end any transfer.
pub(crate) const ALL_MISSES: usize = MISSES as usize;

/// How many time-outs there are after one visit at most: those of transfers that dally come twice while all places are
/// taken, and one more transfer may give way.
pub(crate) const LATE: usize = 2 * LIVE + ALL_MISSES;

/// How many entries the lists of all that is sent have at most. An entry has 16 bytes.
pub(crate) const SENT_ENTRIES: usize = 40_000_000;

/// For how many seconds a transfer is left alone that moves more than a block a second.
pub(crate) const PATIENCE: u64 = 10;
