//! What holds of every fault, whatever code reads the bytes. These functions do nothing: each contract is a theorem.

ghost use Rattle.std.specs.Prelude.{◌≡◌, ◌⊎◌, ℕ, List};
ghost use Rattle.byte_output.specs.Bytes.{IsBytes};
ghost use Rattle.tws_file.specs.Text.{File, IsText, IsReadable};
ghost use Rattle.tws_file.specs.declared.file_fault.FileFault as fault;
ghost use Rattle.tws_file.specs.Fault.{HasFileFault};

/// Bytes have at most one fault.
pub fn one_fault()
    ensures { (bytes : List ℕ) (d e : fault.FileFault) → HasFileFault bytes d → HasFileFault bytes e → d ≡ e }
{}

/// Bytes are a file's text or have a fault.
pub fn text_or_fault()
    ensures { (bytes : List ℕ) → IsBytes bytes → IsReadable bytes ⊎ ((e : fault.FileFault) × HasFileFault bytes e) }
{}

/// The text of a file has no fault.
pub fn text_without_fault()
    ensures { (bytes : List ℕ) (f : File) (e : fault.FileFault) → IsText bytes f → HasFileFault bytes e → ⊥ }
{}
