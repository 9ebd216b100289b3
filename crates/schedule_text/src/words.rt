//! The words of a line.

ghost use Rattle.std.specs.Prelude.{◌≡◌, ◌++◌, IfOk, OnOk, map, length};
ghost use Rattle.schedule_text.specs.Schedule.{is_blank, filled, words_of, word_at};

use std::alloc::{AllocError, Global};
use std::mem;

fn is_blank(byte: u8) -> bool
    ensures { result ≡ is_blank byte }
{
    byte == b' ' || byte == b'\t' || byte == b'\r'
}

// Adds a word, unless it is empty.
fn end_word(words: &mut Vec<Vec<u8>>, word: Vec<u8>) -> Result<(), AllocError>
    ensures { OnOk result (map (λ w. w.items) words.new.items ≡ map (λ w. w.items) words.old.items ++ filled word.items) }
{
    if !word.is_empty() {
        words.push(word)?;
    }
    Ok(())
}

/// The words of a line, without its comment.
///
/// # Errors
///
/// Out of memory.
pub(crate) fn words_in(alloc: Global, line: &[u8]) -> Result<Vec<Vec<u8>>, AllocError>
    ensures { IfOk result (λ words. map (λ w. w.items) words.items ≡ words_of line.now) }
{
    let mut words = Vec::new(alloc);
    let mut word = Vec::new(alloc);
    for byte in line {
        if *byte == b'#' {
            end_word(&mut words, word)?;
            return Ok(words);
        }
        if is_blank(*byte) {
            end_word(&mut words, mem::replace(&mut word, Vec::new(alloc)))?;
        } else {
            word.push(*byte)?;
        }
    }
    end_word(&mut words, word)?;
    Ok(words)
}

/// The word at this place; no bytes if there are fewer words.
pub(crate) fn word_at(words: &[Vec<u8>], place: usize) -> &[u8]
    ensures { result.now ≡ word_at (map (λ w. w.items) words.now) place }
{
    match words.get(place) {
        Some(word) => word.as_slice(),
        None => &[],
    }
}
