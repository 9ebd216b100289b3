//! The version of the program.

/// The version of the program, as `tws --version` prints it.
pub const VERSION: &str = "1.0.0";
