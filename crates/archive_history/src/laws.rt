//! What a history keeps of a solution file. The function does nothing: its contract is a law.

ghost use Rattle.std.specs.Prelude.{ℕ, List};
ghost use Rattle.tws_file.specs.Text.{File, IsText};
ghost use Rattle.archive_history.specs.Kept.{unpadded, without_pads};

/// What is kept of a solution file is one: the same header and the same records, in order, without the pads.
pub fn kept_files()
    ensures { (bytes : List ℕ) (f : File) → IsText bytes f → IsText (without_pads bytes) (unpadded f) }
{}
