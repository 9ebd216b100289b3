//! The forms of a table's row.

ghost use Rattle.std.specs.Prelude.{◌≡◌, ◌≢◌, ◌++◌, List, [], ℕ, string_bytes, OnOk};
ghost use Rattle.tws_file.specs.Text.{Solution as Plain};

use std::alloc::{AllocError, Allocator};
use tws_file::Solution;

/// How the row of a solution is written.
pub trait RowFormat {
    /// The row of a solution.
    ghost row_text: { Self → Plain → List ℕ };

    /// Appends the row of a solution, which is not empty.
    ///
    /// # Errors
    ///
    /// Out of memory. The text is then unspecified.
    fn push_row<A: Allocator, B: Allocator>(
        &self,
        text: &mut String<A>,
        solution: &Solution<B>,
    ) -> Result<(), AllocError>
        ensures pushed { OnOk result (string_bytes text.new ≡ string_bytes text.old ++ row_text self.now solution.now) }
        ensures some { row_text self.now solution.now ≢ [] };
}
