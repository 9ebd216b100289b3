//! Reading a solution file that arrives piece by piece.

ghost use Rattle.std.specs.Prelude.{◌≡◌, ◌+◌, ℕ, List, [], ◌++◌, length, Err, OnOk, IfOk, IfErr};
ghost use Rattle.tws_file.specs.Text.{File, IsText};
ghost use Rattle.tws_file.specs.Fault.{FailsWith, IsReadAs};
ghost use Rattle.tws_reader.specs.Reader.{reading, HasRoomFor, Pushes, HasTaken, TakesPiece, HasAtMost, HasNoLasting, Finishes, IsAnswer};

use crate::part_reader::PartReader;
use std::alloc::{Allocator, Global};
use std::marker::Model;
use tws_file::{FileFault, Records, TwsFile};

/// Reads a solution file that arrives piece by piece.
#[derive(Drop)]
pub struct Reader<A: Allocator + Copy = Global> {
    alloc: A,
    parts: PartReader<A>,
    /// The records that were handed out.
    records: Records<A>,
}

impl<A: Allocator + Copy> Model for Reader<A> {
    ghost use Rattle.tws_reader.specs.Reader.{Reading, reading_of, IsReader};

    ghost Value = { Reading };

    ghost view = { reading_of };

    ghost invariant = { IsReader };
}

impl<A: Allocator + Copy> Reader<A> {
    /// A reader that has received nothing. Does not allocate.
    pub fn new(alloc: A) -> Self
        ensures { result ≡ reading [] }
    {
        Reader {
            alloc,
            parts: PartReader::new(alloc),
            records: Records::of(Vec::new(alloc)),
        }
    }

    /// Takes the next piece of the file. All pieces together have at most 18,446,744,073,709,551,615 bytes.
    ///
    /// # Errors
    ///
    /// The fault of the bytes so far if no further bytes can cure it, so any but `ShortHeader` and `ShortRecord`. It is
    /// kept, all else is dropped, and every later call returns it. After `Memory` the reader is as it was before the piece.
    pub fn push(&mut self, piece: &[u8]) -> Result<(), FileFault>
        requires { HasRoomFor self.old piece.now }
        ensures pushes { Pushes self.old piece.now result self.new }
        // However the bytes are cut, the reader has then taken them and the piece.
        ensures taken { (bytes : List ℕ) → HasTaken self.old bytes → TakesPiece result (bytes ++ piece.now) self.new }
        // For callers that count the bytes, to show that the next piece has room.
        ensures counted { (n : ℕ) → HasAtMost self.old n → HasAtMost self.new (n + length piece.now) }
        ensures goes_on { OnOk result (HasNoLasting self.new) }
        // An empty piece does not allocate.
        ensures empty { piece.now ≡ [] → result ≡ Err FileFault.Memory → ⊥ }
    {
        match self.parts.push_into(piece, &mut self.records) {
            Ok(()) => Ok(()),
            Err(fault) => {
                if fault == FileFault::Memory {
                    return Err(fault);
                }
                self.records = Records::of(Vec::new(self.alloc));
                Err(fault)
            }
        }
    }

    /// Returns the file, once its whole text has arrived. Does not allocate.
    ///
    /// # Errors
    ///
    /// The fault of the bytes that arrived, or the one that was kept.
    pub fn finish(self) -> Result<TwsFile<A>, FileFault>
        ensures finishes { Finishes self result }
        // Returns what `read_file` returns for all the bytes, but is never out of memory.
        ensures joined { (bytes : List ℕ) → HasTaken self bytes → IsAnswer bytes result }
    {
        let Reader { parts, records, .. } = self;
        match parts.end() {
            Ok(header) => {
                let TwsFile {
                    ruleset,
                    word,
                    extra,
                    ..
                } = header;
                Ok(TwsFile {
                    ruleset,
                    word,
                    extra,
                    records,
                })
            }
            Err(fault) => Err(fault),
        }
    }
}

/// Reads a solution file.
///
/// # Errors
///
/// The fault of the bytes, or `Memory` if an allocation was refused.
pub fn read_file<A: Allocator + Copy>(alloc: A, bytes: &[u8]) -> Result<TwsFile<A>, FileFault>
    // The bytes are the text of the file that is returned.
    ensures read { IfOk result (λ file. IsText bytes.now file) }
    // A file's text is read as that file, unless an allocation is refused.
    ensures accepts { (file : File) → IsText bytes.now file → IsReadAs file result }
    // A fault is that of the bytes, or `Memory`.
    ensures fault { IfErr result (FailsWith bytes.now) }
{
    let mut reader = Reader::new(alloc);
    reader.push(bytes)?;
    reader.finish()
}
