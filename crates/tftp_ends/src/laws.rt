//! What holds of a sender and a receiver, whatever the network between them does, and of the chunks of any file. These
//! functions do nothing: each contract is a theorem.

ghost use Rattle.std.specs.Prelude.{◌≡◌, ℕ, ◌+◌, ◌<◌, ◌≤◌, List, length};
ghost use Rattle.std.specs.List.{concat};
ghost use Rattle.tftp_ends.specs.Chunks.{chunk_count, chunk_of, chunks_of};
ghost use Rattle.tftp_ends.specs.Ends.{Verdict, Sender, Receiver};
ghost use Rattle.tftp_ends.specs.Patience.{KeepsSenderWait, CountsSenderWait, KeepsReceiverWait, CountsReceiverWait};
ghost use Rattle.tftp_ends.specs.Pair.{PairEvent, pair_run, HasFirstBlocks, FinishesWhole, SendsOnce, IsTakenOnce};

use crate::chunks::CHUNK_SIZE;
use crate::limits::{DALLY, MAX_BLOCKS, MAX_FILE, MISSES};

/// What holds of a sender of any file and a new receiver, after any list of deliveries, each of any DATA or ACK that
/// was ever sent, of time-outs, of refused allocations and of requests for the file.
pub fn one_pair()
    // Until the file is taken out, the receiver's bytes are the blocks that it counts, joined.
    ensures blocks { (file : List ℕ) (events : List PairEvent) → HasFirstBlocks file (pair_run file events) }
    // Until the file is taken out, the sender has finished only if the receiver has the whole file.
    ensures whole { (file : List ℕ) (events : List PairEvent) → FinishesWhole file (pair_run file events) }
    // The sender has sent exactly one DATA for each block up to its current one, and one for each time-out that made it
    // send.
    ensures once { (file : List ℕ) (events : List PairEvent) → SendsOnce (pair_run file events) }
    // What is taken out is the sender's file, at most once.
    ensures taken { (file : List ℕ) (events : List PairEvent) → IsTakenOnce file (pair_run file events) }
{}

/// What an end has come through counts `MISSES` for each block that it has, and one for each time-out since. No packet lowers it,
/// and each time-out raises it or ends the end; as fewer than `MISSES` time-outs come in a row, the blocks bound the time-outs.
pub fn patience()
    ensures ack { (n : ℕ) (s : Sender) → KeepsSenderWait n s }
    ensures sender { (s : Sender) → CountsSenderWait s }
    ensures data { (verdict : Verdict) (n : ℕ) (body : List ℕ) (r : Receiver) → KeepsReceiverWait verdict n body r }
    ensures receiver { (r : Receiver) → CountsReceiverWait r }
{}

/// The chunks of a file joined are the file. Each has `CHUNK_SIZE` bytes, except the last, which has 1 to `CHUNK_SIZE`.
pub fn joined_chunks()
    ensures joined { (file : List ℕ) → concat (chunks_of file) ≡ file }
    ensures full { (file : List ℕ) (i : ℕ) → i + 1 < chunk_count file → length (chunk_of file i) ≡ CHUNK_SIZE }
    ensures some { (file : List ℕ) (i : ℕ) → i < chunk_count file → 1 ≤ length (chunk_of file i) }
    ensures most { (file : List ℕ) (i : ℕ) → length (chunk_of file i) ≤ CHUNK_SIZE }
{}

/// The values of the limits, which the definitions use by name.
pub fn limit_values()
    ensures blocks { MAX_BLOCKS ≡ 65535 }
    ensures file { MAX_FILE ≡ 33553919 }
    ensures misses { MISSES ≡ 5 }
    ensures dally { DALLY ≡ 2 }
    ensures chunk { CHUNK_SIZE ≡ 16384 }
{}
