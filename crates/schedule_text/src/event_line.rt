//! The event that the words of a line name.

ghost use Rattle.std.specs.Prelude.{◌≡◌, Some, IfOk, map};
ghost use Rattle.std.specs.Option.{option_map};
ghost use Rattle.archive_world.specs.View.{event_of};
ghost use Rattle.schedule_text.specs.Schedule.{event_in, begin_of, begin_in, deliver_in, client_timeout_in, server_timeout_in, stray_in, unknown_keep_in};

use crate::fields::{bytes, endpoint, index, port};
use crate::keyword::{OperationKind, Verb, is_found, ruleset_named};
use crate::words::word_at;
use archive_world::{Datagram, Event, Op, OpKind};
use std::alloc::{AllocError, Global};
use tftp_packet::Endpoint;

fn put(alloc: Global, client: Endpoint, hex: &[u8]) -> Result<Option<Event>, AllocError>
    ensures { IfOk result (λ found. option_map event_of found ≡ begin_of (Some OperationKind.Put) client hex.now) }
{
    match bytes(alloc, hex)? {
        Some(file) => {
            let kind = OpKind::Put(file);
            Ok(Some(Event::Begin(Op { client, kind })))
        }
        None => Ok(None),
    }
}

fn get(client: Endpoint, name: &[u8]) -> Option<Event>
    ensures { option_map event_of result ≡ begin_of (Some OperationKind.Get) client name.now }
{
    match ruleset_named(name) {
        Some(ruleset) => {
            let kind = OpKind::Get(ruleset);
            Some(Event::Begin(Op { client, kind }))
        }
        None => None,
    }
}

fn begin(
    alloc: Global,
    kind: &[u8],
    client: Option<Endpoint>,
    what: &[u8],
) -> Result<Option<Event>, AllocError>
    ensures { IfOk result (λ found. option_map event_of found ≡ begin_in kind.now client what.now) }
{
    let Some(client) = client else {
        return Ok(None);
    };
    match OperationKind::from_word(kind) {
        Some(OperationKind::Put) => put(alloc, client, what),
        Some(OperationKind::Get) => Ok(get(client, what)),
        None => Ok(None),
    }
}

fn deliver(place: &[u8], spare: &[u8]) -> Option<Event>
    ensures { option_map event_of result ≡ deliver_in place.now spare.now }
{
    let Some(index) = index(place) else {
        return None;
    };
    match port(spare) {
        Some(spare) => Some(Event::Deliver { index, spare }),
        None => None,
    }
}

fn client_timeout(client: Option<Endpoint>) -> Option<Event>
    ensures { option_map event_of result ≡ client_timeout_in client }
{
    match client {
        Some(client) => Some(Event::ClientTimeout { client }),
        None => None,
    }
}

fn server_timeout(word: &[u8]) -> Option<Event>
    ensures { option_map event_of result ≡ server_timeout_in word.now }
{
    match port(word) {
        Some(port) => Some(Event::ServerTimeout { port }),
        None => None,
    }
}

fn stray(
    alloc: Global,
    from: Option<Endpoint>,
    to: Option<Endpoint>,
    hex: &[u8],
) -> Result<Option<Event>, AllocError>
    ensures { IfOk result (λ found. option_map event_of found ≡ stray_in from to hex.now) }
{
    let Some(from) = from else {
        return Ok(None);
    };
    let Some(to) = to else {
        return Ok(None);
    };
    match bytes(alloc, hex)? {
        Some(bytes) => Ok(Some(Event::Stray(Datagram { from, to, bytes }))),
        None => Ok(None),
    }
}

fn unknown_keep(place: &[u8], word: &[u8]) -> Option<Event>
    ensures { option_map event_of result ≡ unknown_keep_in place.now word.now }
{
    let Some(index) = index(place) else {
        return None;
    };
    match is_found(word) {
        Some(found) => Some(Event::UnknownKeep { index, found }),
        None => None,
    }
}

/// The event that these words name, if they name one.
///
/// # Errors
///
/// Out of memory.
pub(crate) fn event(alloc: Global, words: &[Vec<u8>]) -> Result<Option<Event>, AllocError>
    ensures { IfOk result (λ found. option_map event_of found ≡ event_in (map (λ w. w.items) words.now)) }
{
    let Some(verb) = Verb::from_word(word_at(words, 0)) else {
        return Ok(None);
    };
    if words.len() != verb.word_count() {
        return Ok(None);
    }
    let (one, two, three) = (word_at(words, 1), word_at(words, 2), word_at(words, 3));
    let (four, five) = (word_at(words, 4), word_at(words, 5));
    match verb {
        Verb::Begin => begin(alloc, one, endpoint(two, three), four),
        Verb::Deliver => Ok(deliver(one, two)),
        Verb::ClientTimeout => Ok(client_timeout(endpoint(one, two))),
        Verb::ServerTimeout => Ok(server_timeout(one)),
        Verb::Stray => stray(alloc, endpoint(one, two), endpoint(three, four), five),
        Verb::Restart => Ok(Some(Event::Restart)),
        Verb::UnknownKeep => Ok(unknown_keep(one, two)),
    }
}
