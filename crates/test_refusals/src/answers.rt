//! What a run of a call returned.

// What several of these tests compare: datagrams, collections, received files and what a keeper has.
use archive_memory::{Kept, MemoryKeeper};
use std::alloc::{Allocator, Global};
use test_samples::HUNDRED;
use tftp_ends::Received;
use tftp_packet::{Endpoint, Out};
use tws_best::Collection;
use tws_file::Ruleset;

// Whether these bytes are sent from this port to this endpoint.
pub(crate) fn is_out(out: &Out, from: u16, to: Endpoint, bytes: &[u8]) -> bool {
    out.from_port == from && out.to == to && out.dgram.bytes() == bytes
}

// The same of what may be sent.
pub(crate) fn goes(out: &Option<Out>, from: u16, to: Endpoint, bytes: &[u8]) -> bool {
    match out {
        Some(out) => is_out(out, from, to, bytes),
        None => false,
    }
}

// Whether a collection has this text.
pub(crate) fn has_text<A: Allocator + Copy>(
    global: Global,
    collection: &Collection<A>,
    text: &[u8],
) -> bool {
    let mut out = Vec::new(global);
    let is_written = collection.write_text(&mut out).is_ok();
    is_written && out.as_slice() == text
}

// Whether a received file has these bytes.
pub(crate) fn has_bytes<A: Allocator>(global: Global, file: &Received<A>, bytes: &[u8]) -> bool {
    match file.to_vec(global) {
        Ok(copy) => copy.as_slice() == bytes,
        Err(_) => false,
    }
}

// Whether this text was kept for a ruleset.
pub(crate) fn was_kept<A: Allocator>(one: &Kept<A>, ruleset: Ruleset, text: &[u8]) -> bool {
    one.ruleset == ruleset && one.ok && one.text.as_slice() == text
}

// Whether a keeper has exactly the file for Lynx.
pub(crate) fn keeps_file<A: Allocator + Copy>(keeper: &MemoryKeeper<A>) -> bool {
    match keeper.kept() {
        [one] => was_kept(one, Ruleset::Lynx, HUNDRED),
        _ => false,
    }
}
