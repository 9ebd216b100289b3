//! How an answer gets into the host's memory.

ghost use Rattle.std.specs.Prelude.{◌≡◌, ◌≢◌, ◌≤◌, true, false, Err, length, take, IsOkAnd};
ghost use Rattle.web_answers.specs.declared.web_fault.WebFault.{WebFault};
ghost use Rattle.web_answers.specs.Answers.{words_of};
ghost use Rattle.web_exports.specs.Delivery.{Delivers};

use std::alloc::Allocator;
use web_answers::WebFault;

// The statuses.
const DONE: u32 = 0;

const FAILED: u32 = 1;

const NO_ROOM: u32 = 2;

// Copies the text to the front of the room, and says how long it is. Returns whether there was room.
fn copy_out(text: &[u8], room: &mut [u8], len: &mut usize) -> bool
    ensures copied { result ≡ true → take len.new room.new ≡ text.now }
    ensures fits { result ≡ true → len.new ≤ length room.new }
    ensures unwritten { result ≡ false → room.new ≡ room.old }
{
    *len = text.len();
    if text.len() > room.len() {
        return false;
    }
    let (front, _) = room.split_at_mut(text.len());
    front.copy_from_slice(text);
    true
}

// Copies why there is no answer to the front of the room.
fn explain<A: Allocator>(alloc: A, fault: WebFault, room: &mut [u8], len: &mut usize) -> u32
    ensures failed { result ≡ 1 → take len.new room.new ≡ words_of fault }
    ensures unwritten { result ≡ 2 → room.new ≡ room.old }
    ensures fits { result ≢ 2 → len.new ≤ length room.new }
    ensures never { result ≢ 0 }
    ensures few { result ≤ 2 }
{
    match format!(in alloc; "{fault}") {
        Ok(words) => {
            if copy_out(words.as_bytes(), room, len) {
                FAILED
            } else {
                NO_ROOM
            }
        }
        Err(_) => NO_ROOM,
    }
}

/// Copies the answer, or why there is none, to the front of the room, and says how long it is. Returns 0 for an answer, 1
/// for a fault, and 2 if there was no room.
pub(crate) fn deliver<A: Allocator + Copy>(
    alloc: A,
    answer: Result<Vec<u8, A>, WebFault>,
    room: &mut [u8],
    len: &mut usize,
) -> u32
    ensures { Delivers (λ text. IsOkAnd answer (λ bytes. text ≡ bytes.items)) (λ fault. answer ≡ Err fault) result room.old room.new len.new }
{
    match answer {
        Ok(text) => {
            if copy_out(&text, room, len) {
                DONE
            } else {
                NO_ROOM
            }
        }
        Err(fault) => explain(alloc, fault, room, len),
    }
}
