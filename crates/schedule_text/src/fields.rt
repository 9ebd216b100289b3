//! The numbers, endpoints and bytes of a line.

ghost use Rattle.std.specs.Prelude.{◌≡◌, ◌≤◌, ◌<◌, ◌-◌, ◌^◌, IfOk, IfSome};
ghost use Rattle.schedule_text.specs.Words.{number_in, digit_in, endpoint_in, no_bytes, bytes_in};

use hex::FromHexError;
use std::alloc::{AllocError, Global};
use tftp_packet::Endpoint;
use tws_file::Bytes;

// The value of a decimal digit.
fn digit(byte: u8) -> Option<u64>
    ensures is { result ≡ digit_in byte }
    ensures small { IfSome result (λ d. d < 10) }
{
    match byte {
        b'0'..=b'9' => Some(u64::from(byte - b'0')),
        _ => None,
    }
}

// The number that is written in decimal digits alone, if it is at most `most`.
fn number(word: &[u8], most: u64) -> Option<u64>
    requires { 9 ≤ most }
    ensures is { result ≡ number_in most word.now }
    ensures bounded { IfSome result (λ n. n ≤ most) }
{
    if word.is_empty() {
        return None;
    }
    let mut n = 0;
    for byte in word {
        let Some(digit) = digit(*byte) else {
            return None;
        };
        if n > (most - digit) / 10 {
            return None;
        }
        n = n * 10 + digit;
    }
    Some(n)
}

/// A place in a list, in decimal digits.
pub(crate) fn index(word: &[u8]) -> Option<usize>
    ensures { result ≡ number_in (2 ^ 64 - 1) word.now }
{
    match number(word, u64::MAX) {
        Some(n) => Some(n as usize),
        None => None,
    }
}

/// A port, in decimal digits.
pub(crate) fn port(word: &[u8]) -> Option<u16>
    ensures { result ≡ number_in (2 ^ 16 - 1) word.now }
{
    match number(word, 65_535) {
        Some(n) => Some(n as u16),
        None => None,
    }
}

fn host(word: &[u8]) -> Option<u32>
    ensures { result ≡ number_in (2 ^ 32 - 1) word.now }
{
    match number(word, 4_294_967_295) {
        Some(n) => Some(n as u32),
        None => None,
    }
}

/// An endpoint: its host and its port, each in decimal digits.
pub(crate) fn endpoint(host_word: &[u8], port_word: &[u8]) -> Option<Endpoint>
    ensures { result ≡ endpoint_in host_word.now port_word.now }
{
    let Some(host) = host(host_word) else {
        return None;
    };
    match port(port_word) {
        Some(port) => Some(Endpoint { host, port }),
        None => None,
    }
}

fn none_word() -> &'static [u8]
    ensures { result.now ≡ no_bytes }
{
    b"-"
}

/// Bytes as pairs of hexadecimal digits, or `-` for none.
///
/// # Errors
///
/// Out of memory.
pub(crate) fn bytes(alloc: Global, word: &[u8]) -> Result<Option<Bytes>, AllocError>
    ensures { IfOk result (λ found. found ≡ bytes_in word.now) }
{
    if word == none_word() {
        return Ok(Some(Bytes::of(Vec::new(alloc))));
    }
    match hex::decode(alloc, word) {
        Ok(bytes) => Ok(Some(Bytes::of(bytes))),
        Err(fault) => {
            if fault == FromHexError::OutOfMemory {
                return Err(AllocError);
            }
            Ok(None)
        }
    }
}
