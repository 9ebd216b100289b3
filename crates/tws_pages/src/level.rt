//! A level of a set.

use tws_file::{Bytes, Key};

/// A level of a set, as a list of levels has it.
#[derive(Drop)]
pub struct Level {
    /// Its number and its password.
    pub key: Key,
    /// Its name, in any bytes.
    pub name: Bytes,
    /// Its time limit in seconds, and 0 for none.
    pub limit: u32,
}
