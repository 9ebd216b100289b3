//! The functions that a host calls. Each returns 0 for an answer, 1 for a fault, and 2 if there was no room; `len` says how
//! many bytes of the room were written.

ghost use Rattle.std.specs.Prelude.{[], ◌∷◌};
ghost use Rattle.tws_best.specs.Best.{collection_text};
ghost use Rattle.tws_compare.specs.Compare.{better_of, rows_of};
ghost use Rattle.tws_compare.specs.Lines.{comparison_text};
ghost use Rattle.tws_file.specs.Packing.{packed_text};
ghost use Rattle.tws_tables.specs.Csv.{csv_of};
ghost use Rattle.tws_pages.specs.Page.{page_of};
ghost use Rattle.web_answers.specs.Answers.{Answers, AnswersBest, AnswersBoth, Fails, FailsAlone};
ghost use Rattle.web_exports.specs.Delivery.{Delivers};

use crate::delivery::deliver;
use web_answers::{best, better, compared, csv, packed, page};
use web_arena::{Arena, Region};

/// The solutions of a file as comma-separated values.
#[unsafe(no_mangle)]
pub extern "C" fn file_csv(memory: Region, file: &[u8], room: &mut [u8], len: &mut usize) -> u32
    ensures { Delivers (Answers csv_of file.now) (FailsAlone file.now) result room.old room.new len.new }
{
    let arena = Arena::new(memory);
    deliver(&arena, csv(&arena, file), room, len)
}

/// A page of HTML of a file.
#[unsafe(no_mangle)]
pub extern "C" fn file_page(memory: Region, file: &[u8], room: &mut [u8], len: &mut usize) -> u32
    ensures { Delivers (Answers (λ file. page_of (file ∷ [])) file.now) (FailsAlone file.now) result room.old room.new len.new }
{
    let arena = Arena::new(memory);
    deliver(&arena, page(&arena, file), room, len)
}

/// A file with its moves in the fewest bytes.
#[unsafe(no_mangle)]
pub extern "C" fn file_packed(memory: Region, file: &[u8], room: &mut [u8], len: &mut usize) -> u32
    ensures { Delivers (Answers packed_text file.now) (FailsAlone file.now) result room.old room.new len.new }
{
    let arena = Arena::new(memory);
    deliver(&arena, packed(&arena, file), room, len)
}

/// The comparison of two files.
#[unsafe(no_mangle)]
pub extern "C" fn files_compared(
    memory: Region,
    mine: &[u8],
    theirs: &[u8],
    room: &mut [u8],
    len: &mut usize,
) -> u32
    ensures { Delivers (AnswersBoth (λ mine theirs. comparison_text (rows_of mine theirs)) mine.now theirs.now) (Fails mine.now theirs.now) result room.old room.new len.new }
{
    let arena = Arena::new(memory);
    deliver(&arena, compared(&arena, mine, theirs), room, len)
}

/// The collection of my solutions that are better than theirs, or of levels that they have not solved.
#[unsafe(no_mangle)]
pub extern "C" fn files_better(
    memory: Region,
    mine: &[u8],
    theirs: &[u8],
    room: &mut [u8],
    len: &mut usize,
) -> u32
    ensures { Delivers (AnswersBoth (λ mine theirs. collection_text (better_of mine theirs)) mine.now theirs.now) (Fails mine.now theirs.now) result room.old room.new len.new }
{
    let arena = Arena::new(memory);
    deliver(&arena, better(&arena, mine, theirs), room, len)
}

/// The collection of the best solutions of both files.
#[unsafe(no_mangle)]
pub extern "C" fn files_best(
    memory: Region,
    mine: &[u8],
    theirs: &[u8],
    room: &mut [u8],
    len: &mut usize,
) -> u32
    ensures { Delivers (AnswersBest mine.now theirs.now) (Fails mine.now theirs.now) result room.old room.new len.new }
{
    let arena = Arena::new(memory);
    deliver(&arena, best(&arena, mine, theirs), room, len)
}
