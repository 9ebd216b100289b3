//! What holds of every file's text, whatever code reads it. These functions do nothing: each contract is a theorem.

ghost use Rattle.std.specs.Prelude.{◌≡◌, ◌≤◌, ℕ, List, length};
ghost use Rattle.tws_moves.specs.Spelling.{moves_in};
ghost use Rattle.tws_moves.specs.Shortest.{IsShortest};
ghost use Rattle.tws_file.specs.Text.{File, Solution, IsSolution, IsFile, IsText, text_of};
ghost use Rattle.tws_file.specs.declared.«ruleset».Ruleset.{Ruleset as Rules};
ghost use Rattle.tws_file.specs.Names.{file_name_of};
ghost use Rattle.tws_file.specs.Packing.{packed_solution, packed_file};

/// Bytes are the text of at most one file.
pub fn one_file()
    ensures { (bytes : List ℕ) (f g : File) → IsText bytes f → IsText bytes g → f ≡ g }
{}

/// No two rulesets have the same file name.
pub fn one_file_name()
    ensures { (a b : Rules) → file_name_of a ≡ file_name_of b → a ≡ b }
{}

/// A packed file has a text. Its solutions' moves are those of the file, each in the fewest bytes.
pub fn packed_files()
    ensures fits { (f : File) → IsFile f → IsFile (packed_file f) }
    ensures same { (s : Solution) → IsSolution s → moves_in (packed_solution s).moves ≡ moves_in s.moves }
    ensures shortest { (s : Solution) → IsSolution s → IsShortest (packed_solution s).moves (moves_in s.moves) }
    ensures no_longer { (f : File) → IsFile f → length (text_of (packed_file f)) ≤ length (text_of f) }
    ensures once { (f : File) → IsFile f → packed_file (packed_file f) ≡ packed_file f }
{}
