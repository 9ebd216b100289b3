//! Where an input is read from.

/// Where an input is read from.
#[derive(Drop)]
pub enum Source {
    /// Standard input: no file was named, or `-`.
    Standard,
    /// The file of this name.
    Named(String),
}
