//! A caller of `archive_sync`.

use archive_sync::{SyncFault, fetch_news, fetch_news_of, put_part};
use archive_wire::ReadyWire;
use std::alloc::Global;
use tftp_packet::Endpoint;
use tws_file::Ruleset;

/// Brings what is better of the Lynx collection of one archive to another one, over any wire. Returns the length of what
/// was put, if anything was.
pub fn bring<W: ReadyWire>(
    alloc: Global,
    wire: &mut W,
    from: Endpoint,
    to: Endpoint,
) -> Result<Option<u64>, SyncFault> {
    let news = fetch_news(alloc, wire, from, to, Ruleset::Lynx, 1000)?;
    let (forth, _) = news.into_parts();
    match put_part(wire, to, forth, 1000) {
        Ok(len) => Ok(len),
        Err(fault) => Err(SyncFault::To(fault)),
    }
}

/// Brings what of a Lynx solution file is better than what an archive has, or new, to that archive, over any wire. Returns the
/// length of what was put, if anything was.
pub fn offer<W: ReadyWire>(
    alloc: Global,
    wire: &mut W,
    text: &[u8],
    to: Endpoint,
) -> Result<Option<u64>, SyncFault> {
    let news = fetch_news_of(alloc, wire, text, to, Ruleset::Lynx, 1000)?;
    let (forth, _) = news.into_parts();
    match put_part(wire, to, forth, 1000) {
        Ok(len) => Ok(len),
        Err(fault) => Err(SyncFault::To(fault)),
    }
}
