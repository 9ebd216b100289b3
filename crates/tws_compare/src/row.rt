//! A row of a comparison.

use crate::standing::Standing;
use std::fmt;
use tws_file::Key;

/// A row of a comparison: a level that either file has solved, and how the best solutions compare there.
#[derive(Clone, Copy, Debug, PartialEq, Eq)]
pub struct Row {
    /// The level.
    pub key: Key,
    /// How the best solutions of the two files compare.
    pub standing: Standing,
}

/// The level as in the listing of a file, and the standing.
impl fmt::Display for Row {
    ghost use Rattle.std.specs.Prelude.{Some};
    ghost use Rattle.tws_compare.specs.Lines.{row_text};

    ghost output = { λ row. Some (row_text row) };

    fn fmt<W: fmt::Write>(&self, f: &mut fmt::Formatter<W>) -> fmt::Result {
        write!(f, "level {} {}", self.key, self.standing)
    }
}
