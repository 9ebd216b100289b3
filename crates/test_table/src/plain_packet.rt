//! How the plain server reads packets.

// The packets of the plain server.
use crate::plain_file::block_of;
use std::alloc::{AllocError, Global};

#[derive(Clone, Copy)]
pub(crate) enum Packet<'a> {
    Malformed,
    Read { name: &'a [u8], mode: &'a [u8] },
    Write { mode: &'a [u8] },
    Data { n: usize, body: &'a [u8] },
    Ack { n: usize },
    Error,
}

fn byte_at(bytes: &[u8], i: usize) -> usize {
    usize::from(bytes.get(i).copied().unwrap_or(0))
}

fn number_at(bytes: &[u8], i: usize) -> usize {
    let high = bytes.get(i).copied().unwrap_or(0);
    let low = bytes.get(i.wrapping_add(1)).copied().unwrap_or(0);
    usize::from(u16::from_be_bytes([high, low]))
}

// The text from this place up to the next zero byte, if there is one.
fn text_at(bytes: &[u8], from: usize) -> Option<&[u8]> {
    let rest = bytes.get(from..)?;
    let end = rest.iter().position(|b| *b == 0)?;
    rest.get(..end)
}

fn parse_request(bytes: &[u8]) -> Packet<'_> {
    let Some(name) = text_at(bytes, 2) else {
        return Packet::Malformed;
    };
    let Some(mode) = text_at(bytes, name.len().wrapping_add(3)) else {
        return Packet::Malformed;
    };
    if byte_at(bytes, 1) == 1 {
        Packet::Read { name, mode }
    } else {
        Packet::Write { mode }
    }
}

fn parse_data(bytes: &[u8]) -> Packet<'_> {
    match bytes.get(4..) {
        Some(body) => Packet::Data {
            n: number_at(bytes, 2),
            body,
        },
        None => Packet::Malformed,
    }
}

pub(crate) fn parse(bytes: &[u8]) -> Packet<'_> {
    if bytes.len() < 2 || bytes.len() > 516 || byte_at(bytes, 0) != 0 {
        return Packet::Malformed;
    }
    match byte_at(bytes, 1) {
        1 | 2 => parse_request(bytes),
        3 => parse_data(bytes),
        4 if bytes.len() == 4 => Packet::Ack {
            n: number_at(bytes, 2),
        },
        5 if text_at(bytes, 4).is_some() => Packet::Error,
        _ => Packet::Malformed,
    }
}

pub(crate) fn ack(alloc: Global, n: usize) -> Result<Vec<u8>, AllocError> {
    let number = ((n % 65536) as u16).to_be_bytes();
    Vec::from_slice(alloc, &[0, 4, number[0], number[1]])
}

pub(crate) fn data(alloc: Global, file: &[u8], n: usize) -> Result<Vec<u8>, AllocError> {
    let number = ((n % 65536) as u16).to_be_bytes();
    let mut bytes = Vec::from_slice(alloc, &[0, 3, number[0], number[1]])?;
    bytes.extend_from_slice(block_of(file, n))?;
    Ok(bytes)
}
