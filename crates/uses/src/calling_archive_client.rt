//! A caller of `archive_client`.

use archive_client::Get;
use std::alloc::{AllocError, Global};
use tftp_ends::Received;
use tftp_packet::{Endpoint, Out};
use tws_file::Ruleset;

/// Fetches the Lynx collection at port 5000, where these datagrams arrive; `None` is a time-out. Returns what the client
/// sends, and the collection once all of it has arrived.
pub fn fetch(
    alloc: Global,
    server: Endpoint,
    arrivals: &[Option<(Endpoint, &[u8])>],
) -> Result<(Vec<Out>, Option<Received>), AllocError> {
    let (mut client, request) = Get::start(alloc, 5000, server, Ruleset::Lynx);
    let mut sent = Vec::new(alloc);
    sent.push(request)?;
    for arrival in arrivals {
        let out = match arrival {
            Some((from, bytes)) => client.on_datagram(*from, bytes),
            None => client.on_timeout(),
        };
        if let Some(out) = out {
            sent.push(out)?;
        }
    }
    Ok((sent, client.into_file().ok()))
}
