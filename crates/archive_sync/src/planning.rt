//! Comparing the texts of two collections.

ghost use Rattle.std.specs.Prelude.{◌≡◌, IfOk, IfErr, option_map};
ghost use Rattle.tws_best.specs.Best.{collection_text};
ghost use Rattle.archive_sync.specs.News.{IsPart, NewsFails};

use crate::news_fault::NewsFault;
use std::alloc::{AllocError, Allocator};
use tws_best::Collection;
use tws_compare::{CompareFault, better};
use tws_reader::read_file;

// The text of a collection.
fn text_of<A: Allocator + Copy>(
    alloc: A,
    collection: &Collection<A>,
) -> Result<Vec<u8, A>, AllocError>
    ensures { IfOk result (λ text. text.items ≡ collection_text collection.now) }
{
    let mut text = Vec::new(alloc);
    match collection.write_text(&mut text) {
        Ok(()) => Ok(text),
        Err(_) => Err(AllocError),
    }
}

/// What of one text is better than what another text has, or new, as the text of a solution file; `None` if nothing is.
///
/// # Errors
///
/// `First` or `Second` if a text is not that of a solution file, `Rulesets` if they are of different rulesets, and `Memory`
/// if an allocation was refused.
pub fn plan<A: Allocator + Copy>(
    alloc: A,
    first: &[u8],
    second: &[u8],
) -> Result<Option<Vec<u8, A>>, NewsFault>
    ensures part { IfOk result (λ part. IsPart first.now second.now (option_map (λ text. text.items) part)) }
    ensures fails { IfErr result (NewsFails first.now second.now) }
{
    let mine = match read_file(alloc, first) {
        Ok(mine) => mine,
        Err(fault) => return Err(NewsFault::First(fault)),
    };
    let theirs = match read_file(alloc, second) {
        Ok(theirs) => theirs,
        Err(fault) => {
            drop(mine);
            return Err(NewsFault::Second(fault));
        }
    };
    let part = better(alloc, mine, &theirs);
    drop(theirs);
    let part = match part {
        Ok(part) => part,
        Err(CompareFault::Rulesets) => return Err(NewsFault::Rulesets),
        Err(CompareFault::Memory) => return Err(NewsFault::Memory),
    };
    if part.is_empty() {
        drop(part);
        return Ok(None);
    }
    let text = text_of(alloc, &part);
    drop(part);
    match text {
        Ok(text) => Ok(Some(text)),
        Err(_) => Err(NewsFault::Memory),
    }
}
