//! Decoding packets.

ghost use Rattle.std.specs.Prelude.{◌≡◌, ◌+◌, ◌<◌, ◌≤◌, IfOk, IfErr, IfSome, IfNone, IsOkAnd, Err, position, drop, length};
ghost use Rattle.byteorder.specs.Endian.{big_number};
ghost use Rattle.tftp_packet.specs.Packet.{Packet as Plain, read, write, is_zero, zero_count, HasNoZero, IsPacket};
ghost use Rattle.tftp_packet.specs.Fault.{HasPacketFault};
ghost use Rattle.tftp_packet.specs.Decode.{before_zero, after_zero, request_of, data_of, ack_of, error_of, decode_bytes};
ghost use Rattle.tftp_packet.specs.View.{packet_of, decoded_of};
ghost use Rattle.tftp_packet.specs.declared.packet_fault.PacketFault as fault;

use crate::opcode::{ACK, DATA, ERROR, READ, WRITE};
use crate::packet::Packet;
use crate::packet_fault::PacketFault;
use crate::sizes::MAX_DATAGRAM;
use byteorder::{BigEndian, ByteOrder};

// The position of the first zero byte.
fn first_zero(bytes: &[u8]) -> Option<usize>
    ensures { result ≡ position is_zero bytes.now }
{
    bytes.iter().position(|b| *b == 0)
}

// The bytes before the first zero byte, and those after it.
#[tactic(auto, using(crate::proofs::Zeros::no_position, crate::proofs::Zeros::some_position))]
fn split_zero(bytes: &[u8]) -> Option<(&[u8], &[u8])>
    ensures before { IfSome result (λ p. p.0.now ≡ before_zero bytes.now) }
    ensures after { IfSome result (λ p. p.1.now ≡ after_zero bytes.now) }
    ensures found { IfSome result (λ p. zero_count bytes.now ≡ zero_count (after_zero bytes.now) + 1) }
    ensures none { IfNone result (HasNoZero bytes.now) }
{
    let end = first_zero(bytes)?;
    Some((&bytes[..end], &bytes[end + 1..]))
}

// The name and the mode of a request, from the bytes after its opcode.
fn read_request(rest: &[u8]) -> Result<(&[u8], &[u8]), PacketFault>
    ensures whole { IfOk result (λ r. 2 ≤ zero_count rest.now) }
    ensures name { IfOk result (λ r. r.0.now ≡ before_zero rest.now) }
    ensures mode { IfOk result (λ r. r.1.now ≡ before_zero (after_zero rest.now)) }
    ensures cut { IfErr result (λ e. zero_count rest.now < 2) }
    ensures fault { IfErr result (λ e. e ≡ PacketFault.BadRequest) }
{
    let Some((name, after)) = split_zero(rest) else {
        return Err(PacketFault::BadRequest);
    };
    let Some((mode, _)) = split_zero(after) else {
        return Err(PacketFault::BadRequest);
    };
    Ok((name, mode))
}

fn read_data(rest: &[u8]) -> Result<Packet<'_>, PacketFault>
    ensures { decoded_of result ≡ data_of rest.now }
{
    if rest.len() < 2 {
        return Err(PacketFault::BadBlock);
    }
    Ok(Packet::Data {
        block: BigEndian::read_u16(rest),
        body: &rest[2..],
    })
}

fn read_ack(rest: &[u8]) -> Result<Packet<'_>, PacketFault>
    ensures { decoded_of result ≡ ack_of rest.now }
{
    if rest.len() != 2 {
        return Err(PacketFault::BadBlock);
    }
    Ok(Packet::Ack {
        block: BigEndian::read_u16(rest),
    })
}

fn read_error(rest: &[u8]) -> Result<Packet<'_>, PacketFault>
    ensures { decoded_of result ≡ error_of rest.now }
{
    if rest.len() < 2 {
        return Err(PacketFault::BadError);
    }
    let Some((text, _)) = split_zero(&rest[2..]) else {
        return Err(PacketFault::BadError);
    };
    Ok(Packet::Error {
        code: BigEndian::read_u16(rest),
        text,
    })
}

// The packet of a datagram, or its fault.
#[tactic(auto, unfolding(crate::specs::Decode::decode_bytes))]
fn read_packet(bytes: &[u8]) -> Result<Packet<'_>, PacketFault>
    ensures { decoded_of result ≡ decode_bytes bytes.now }
{
    if bytes.len() < 2 {
        return Err(PacketFault::Short);
    }
    if bytes.len() > MAX_DATAGRAM {
        return Err(PacketFault::TooLong);
    }
    let rest = &bytes[2..];
    match BigEndian::read_u16(bytes) {
        READ => {
            let (name, mode) = read_request(rest)?;
            Ok(Packet::Read { name, mode })
        }
        WRITE => {
            let (name, mode) = read_request(rest)?;
            Ok(Packet::Write { name, mode })
        }
        DATA => read_data(rest),
        ACK => read_ack(rest),
        ERROR => read_error(rest),
        _ => Err(PacketFault::BadOpcode),
    }
}

/// Decodes a datagram as a packet (RFC 1350 section 5). The packet's texts and body are slices of the datagram, in
/// place. Any bytes may follow a request's mode, such as the options of RFC 2347, or an ERROR's text; they are not
/// read.
///
/// # Errors
///
/// The first fault of the datagram, in the order of `PacketFault`. Bytes are a packet or have a fault, never both.
pub fn decode(bytes: &[u8]) -> Result<Packet<'_>, PacketFault>
    // The decoded packet is the one that the bytes are.
    ensures packet { IfOk result (λ p. IsPacket (packet_of p) bytes.now) }
    // Bytes that are a packet are decoded as that packet.
    ensures accepts { (p : Plain) → IsPacket p bytes.now → IsOkAnd result (λ q. packet_of q ≡ p) }
    // A fault that is returned is that of the bytes.
    ensures fault { IfErr result (HasPacketFault bytes.now) }
    // Bytes with a fault are refused with that fault.
    ensures refuses { (e : fault.PacketFault) → HasPacketFault bytes.now e → result ≡ Err e }
    // The same as a function of the bytes.
    ensures function { decoded_of result ≡ decode_bytes bytes.now }
{
    read_packet(bytes)
}
