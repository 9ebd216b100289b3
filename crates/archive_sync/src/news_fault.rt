//! Why two collections were not compared.

use thiserror::Error;
use tws_file::FileFault;

/// Why two texts were not compared.
#[derive(Clone, Copy, Debug, PartialEq, Eq, Error)]
pub enum NewsFault {
    /// The first one is not a solution file.
    #[error("first: {0}")]
    First(FileFault),
    /// The second one is not a solution file.
    #[error("second: {0}")]
    Second(FileFault),
    /// They are of different rulesets.
    #[error("different rulesets")]
    Rulesets,
    /// Out of memory.
    #[error("out of memory")]
    Memory,
}
