//! The names of the files of a history.

ghost use Rattle.std.specs.Prelude.{◌≡◌, IfOk, string_bytes};
ghost use Rattle.std.specs.Int.{w32, to_be_bytes};
ghost use Rattle.std.specs.Net.Addr.{ipv4_octets};
ghost use Rattle.archive_history.specs.Times.{day_of};
ghost use Rattle.archive_history.specs.History.{stem_in_day, stem_text, numbered, draft_of};

use crate::stamp::Stamp;
use std::alloc::{AllocError, Allocator};
use std::net::Ipv4Addr;
use tftp_packet::Endpoint;
use tws_file::Ruleset;

// The address of a peer, which shows as `127.0.0.1`.
fn host_address(peer: Endpoint) -> Ipv4Addr
    ensures { ipv4_octets result ≡ to_be_bytes w32 peer.host }
{
    Ipv4Addr::from(peer.host.to_be_bytes())
}

// The stem of the names of a file that was taken from a peer, in the folder of its day:
// `20261127T091500.123Z-127.0.0.1-5000-lynx`.
fn stem_in_day<A: Allocator + Copy>(
    alloc: A,
    time: &Stamp,
    peer: Endpoint,
    ruleset: Ruleset,
) -> Result<String<A>, AllocError>
    ensures { IfOk result (λ stem. string_bytes stem ≡ stem_in_day time.now peer «ruleset») }
{
    let moment = time.compact(alloc)?;
    let host = host_address(peer);
    let port = peer.port;
    format!(in alloc; "{moment}-{host}-{port}-{ruleset}")
}

/// The stem of the names of a file that was taken from a peer, from the folder of its day on:
/// `2026-11-27/20261127T091500.123Z-127.0.0.1-5000-lynx`.
///
/// # Errors
///
/// Out of memory.
pub(crate) fn stem_of<A: Allocator + Copy>(
    alloc: A,
    day: &str,
    time: &Stamp,
    peer: Endpoint,
    ruleset: Ruleset,
) -> Result<String<A>, AllocError>
    requires { day.now ≡ day_of time.now }
    ensures { IfOk result (λ stem. string_bytes stem ≡ stem_text time.now peer «ruleset») }
{
    let stem = stem_in_day(alloc, time, peer, ruleset)?;
    format!(in alloc; "{day}/{stem}")
}

/// The name with this number; 0 is not written.
pub(crate) fn numbered<A: Allocator + Copy>(
    alloc: A,
    stem: &str,
    number: u32,
) -> Result<String<A>, AllocError>
    ensures { IfOk result (λ name. string_bytes name ≡ numbered stem.now number) }
{
    if number == 0 {
        format!(in alloc; "{stem}.tws")
    } else {
        format!(in alloc; "{stem}-{number}.tws")
    }
}

/// The name under which a file is written.
pub(crate) fn draft_of<A: Allocator + Copy>(alloc: A, name: &str) -> Result<String<A>, AllocError>
    ensures { IfOk result (λ draft. string_bytes draft ≡ draft_of name.now) }
{
    format!(in alloc; "{name}.new")
}

/// The name without the folder that it begins with, if it begins with one.
pub(crate) fn file_name(path: &str) -> &str {
    match path.split_once('/') {
        Some((_, name)) => name,
        None => path,
    }
}
