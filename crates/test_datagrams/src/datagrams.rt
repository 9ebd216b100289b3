//! Packets and requests by the standard's forms.

// Given datagrams and files: what each is by RFC 1350, and what real clients send.
use std::alloc::Global;
use std::test::Fail;
use test_samples::{DATA_HUNDRED, HUNDRED, join};
use tftp_packet::{
    Blocks, Dgram, Owned, Packet, PacketFault, Refusal, decode, encode_ack, encode_data,
    encode_error, encode_read, encode_write, is_octet,
};

// The forms of RFC 1350 section 5, each cut or wrong in one place: the opcode and requests.
#[test]
fn requests_by_the_forms(rt: HostRuntime) {
    let rows: [(&[u8], Result<Packet<'_>, PacketFault>); 7] = [
        (b"", Err(PacketFault::Short)),
        (b"\0", Err(PacketFault::Short)),
        (b"\0\0", Err(PacketFault::BadOpcode)),
        (b"\0\x06\0\0", Err(PacketFault::BadOpcode)),
        (b"\x01\0\0\0", Err(PacketFault::BadOpcode)),
        (b"\0\x01a\0o", Err(PacketFault::BadRequest)),
        (
            b"\0\x01\0\0",
            Ok(Packet::Read {
                name: b"",
                mode: b"",
            }),
        ),
    ];
    for (bytes, answer) in rows {
        assert_eq!(rt; decode(bytes), answer, "at {bytes:?}");
    }
}

// The same for DATA, ACK and ERROR.
#[test]
fn blocks_and_errors_by_the_forms(rt: HostRuntime) {
    let rows: [(&[u8], Result<Packet<'_>, PacketFault>); 6] = [
        (b"\0\x03\0", Err(PacketFault::BadBlock)),
        (b"\0\x04\0\x01\0", Err(PacketFault::BadBlock)),
        (
            b"\0\x03\0\x01",
            Ok(Packet::Data {
                block: 1,
                body: b"",
            }),
        ),
        (b"\0\x05\0", Err(PacketFault::BadError)),
        (b"\0\x05\0\x01a", Err(PacketFault::BadError)),
        (b"\0\x05\0\x01\0", Ok(Packet::Error { code: 1, text: b"" })),
    ];
    for (bytes, answer) in rows {
        assert_eq!(rt; decode(bytes), answer, "at {bytes:?}");
    }
}

#[test]
fn bytes_past_a_datagram(rt: HostRuntime) {
    let mut bytes = [0; 517];
    bytes[1] = 4;
    bytes[3] = 1;
    assert_eq!(rt; decode(&bytes), Err(PacketFault::TooLong));
}

// A datagram has at most a whole block.
#[test]
fn the_longest_datagram(rt: HostRuntime) {
    let mut bytes = [0; 516];
    bytes[1] = 3;
    bytes[3] = 1;
    let block = Packet::Data {
        block: 1,
        body: &[0; 512],
    };
    assert_eq!(rt; decode(&bytes), Ok(block));
}

fn has_name(alloc: Global, fault: PacketFault, name: &str) -> Result<bool, Fail> {
    Ok(format!(in alloc; "{fault}")?.as_str() == name)
}

#[test]
fn faults_by_name(rt: HostRuntime) -> Result<(), Fail> {
    let names = [
        (PacketFault::Short, "Short"),
        (PacketFault::TooLong, "TooLong"),
        (PacketFault::BadOpcode, "BadOpcode"),
        (PacketFault::BadRequest, "BadRequest"),
        (PacketFault::BadBlock, "BadBlock"),
        (PacketFault::BadError, "BadError"),
    ];
    for (fault, name) in names {
        assert!(rt; has_name(rt.alloc(), fault, name)?, "{name}");
    }
    Ok(())
}

// Requests that clients of Debian 12 were seen to send to a socket on the same host, each with default options or with
// those that are named, and the mode of each.
const REQUESTS: [(&str, &[u8], &[u8]); 10] = [
    (
        "tftp-hpa 5.2, -m binary, get",
        b"\0\x01lynx.tws\0octet\0",
        b"octet",
    ),
    (
        "tftp-hpa 5.2, get",
        b"\0\x01lynx.tws\0netascii\0",
        b"netascii",
    ),
    ("atftp 0.8.0, --get", b"\0\x01lynx.tws\0octet\0", b"octet"),
    (
        "atftp 0.8.0, --get with four options",
        b"\0\x01lynx.tws\0octet\0tsize\x000\0timeout\x005\0blksize\x001428\0windowsize\x004\0",
        b"octet",
    ),
    (
        "busybox 1.35.0, -g",
        b"\0\x01lynx.tws\0octet\0tsize\x000\0",
        b"octet",
    ),
    (
        "busybox 1.35.0, -b 1428 -g",
        b"\0\x01lynx.tws\0octet\0blksize\x001428\0tsize\x000\0",
        b"octet",
    ),
    (
        "curl 7.88.1",
        b"\0\x01lynx.tws\0octet\0tsize\x000\0blksize\x00512\0timeout\x006\0",
        b"octet",
    ),
    (
        "curl 7.88.1, --tftp-blksize 1428",
        b"\0\x01lynx.tws\0octet\0tsize\x000\0blksize\x001428\0timeout\x006\0",
        b"octet",
    ),
    (
        "curl 7.88.1, -B",
        b"\0\x01lynx.tws\0netascii\0tsize\x000\0blksize\x00512\0timeout\x006\0",
        b"netascii",
    ),
    (
        "curl 7.88.1, --tftp-no-options",
        b"\0\x01lynx.tws\0octet\0",
        b"octet",
    ),
];

#[test]
fn requests_of_real_clients(rt: HostRuntime) {
    for (client, bytes, mode) in REQUESTS {
        let name = b"lynx.tws";
        let answer = (
            Ok(Packet::Read { name, mode }),
            mode != b"netascii".as_slice(),
        );
        assert_eq!(rt; (decode(bytes), is_octet(mode)), answer, "{client}");
    }
}

// The requests of a put of a file of 28 bytes, by the same clients.
#[test]
fn puts_of_real_clients(rt: HostRuntime) {
    let rows: [(&str, &[u8]); 4] = [
        ("tftp-hpa 5.2, -m binary", b"\0\x02upload.tws\0octet\0"),
        ("atftp 0.8.0", b"\0\x02upload.tws\0octet\0"),
        ("busybox 1.35.0", b"\0\x02upload.tws\0octet\0tsize\x0028\0"),
        (
            "curl 7.88.1",
            b"\0\x02upload.tws\0octet\0tsize\x0028\0blksize\x00512\0timeout\x006\0",
        ),
    ];
    for (client, bytes) in rows {
        let name = b"upload.tws";
        let mode = b"octet";
        assert_eq!(rt; decode(bytes), Ok(Packet::Write { name, mode }), "{client}");
    }
}

// All four sent the same DATA in this put, and the same ACK in a get.
#[test]
fn data_and_acks_of_real_clients(rt: HostRuntime) {
    let body = HUNDRED;
    assert_eq!(rt; decode(DATA_HUNDRED), Ok(Packet::Data { block: 1, body }));
    assert_eq!(rt; decode(b"\0\x04\0\x01"), Ok(Packet::Ack { block: 1 }));
}

// Sent by busybox 1.35.0 when it could not write, and when an option was answered with more than it asked for: code 8
// is that of RFC 2347.
#[test]
fn errors_of_real_clients(rt: HostRuntime) {
    let text = b"write error";
    let rows: [(&[u8], u16, &[u8]); 2] = [
        (b"\0\x05\0\x03write error\0", 3, text),
        (b"\0\x05\0\x08\0", 8, b""),
    ];
    for (bytes, code, text) in rows {
        assert_eq!(rt; decode(bytes), Ok(Packet::Error { code, text }));
    }
}

// RFC 1350 section 5: the letters of octet, netascii and mail in any combination of upper case and lower case.
#[test]
fn modes(rt: HostRuntime) {
    let octet: [&[u8]; 3] = [b"octet", b"OCTET", b"oCtEt"];
    for mode in octet {
        assert!(rt; is_octet(mode), "at {mode:?}");
    }
    let others: [&[u8]; 6] = [b"", b"octe", b"octets", b"0ctet", b"netascii", b"mail"];
    for mode in others {
        assert!(rt; !is_octet(mode), "at {mode:?}");
    }
}

fn is_dgram(dgram: Dgram, bytes: &[u8]) -> bool {
    dgram.bytes() == bytes
}

#[test]
fn requests_and_data_that_are_sent(rt: HostRuntime) {
    let file = b"\x35\x33\x9B\x99\x02\0\0\0";
    let data = b"\0\x03\0\x01\x35\x33\x9B\x99\x02\0\0\0";
    let are_right = [
        is_dgram(encode_read(b"lynx.tws"), b"\0\x01lynx.tws\0octet\0"),
        is_dgram(encode_write(b"upload.tws"), b"\0\x02upload.tws\0octet\0"),
        is_dgram(encode_data(1, HUNDRED), DATA_HUNDRED),
        is_dgram(encode_data(1, file), data),
        is_dgram(encode_data(65535, b""), b"\0\x03\xFF\xFF"),
    ];
    assert_eq!(rt; are_right, [true; 5]);
}

#[test]
fn answers_that_are_sent(rt: HostRuntime) {
    let are_right = [
        is_dgram(encode_ack(0), b"\0\x04\0\0"),
        is_dgram(encode_ack(1), b"\0\x04\0\x01"),
        is_dgram(encode_ack(258), b"\0\x04\x01\x02"),
        is_dgram(
            encode_error(7, b"no such user"),
            b"\0\x05\0\x07no such user\0",
        ),
    ];
    assert_eq!(rt; are_right, [true; 4]);
}

// The codes of RFC 1350 section 5, and the messages of this server and its clients.
const REFUSALS: [(Refusal, u16, &[u8], &[u8]); 8] = [
    (
        Refusal::OctetOnly,
        0,
        b"octet only",
        b"\0\x05\0\0octet only\0",
    ),
    (
        Refusal::NoSuchFile,
        1,
        b"no such file",
        b"\0\x05\0\x01no such file\0",
    ),
    (
        Refusal::ServerBusy,
        0,
        b"server busy",
        b"\0\x05\0\0server busy\0",
    ),
    (
        Refusal::CollectionTooLong,
        0,
        b"collection too long",
        b"\0\x05\0\0collection too long\0",
    ),
    (
        Refusal::OutOfMemory,
        3,
        b"out of memory",
        b"\0\x05\0\x03out of memory\0",
    ),
    (
        Refusal::FileTooLong,
        3,
        b"file too long",
        b"\0\x05\0\x03file too long\0",
    ),
    (
        Refusal::UnknownTransfer,
        5,
        b"unknown transfer",
        b"\0\x05\0\x05unknown transfer\0",
    ),
    (Refusal::NotKept, 0, b"not kept", b"\0\x05\0\0not kept\0"),
];

fn is_refusal(refusal: Refusal, code: u16, text: &[u8], bytes: &[u8]) -> bool {
    refusal.code() == code && refusal.text() == text && is_dgram(refusal.dgram(), bytes)
}

#[test]
fn refusals_that_are_sent(rt: HostRuntime) {
    for (refusal, code, text, bytes) in REFUSALS {
        assert!(rt; is_refusal(refusal, code, text, bytes), "at {bytes:?}");
    }
}

// 512 bytes of value 1, 512 of value 2, and one of value 3.
fn three_blocks(alloc: Global) -> Result<Owned, Fail> {
    Ok(Owned::of(join(alloc, &[1; 512], &[&[2; 512], &[3]])?))
}

// Whether these are the blocks of a file, and no more.
fn has_three_blocks(file: &Owned) -> bool {
    if file.as_slice().len() != 1_025 {
        return false;
    }
    let mut out = [9; 512];
    let count = file.block(1, &mut out);
    let first = (count, out);
    let count = file.block(2, &mut out);
    let second = (count, out);
    let count = file.block(3, &mut out);
    let third = (count, out[0]);
    (first, second, third) == ((512, [1; 512]), (512, [2; 512]), (1, 3))
}

// The same, and the last byte of the file's vector.
fn blocks_and_last(file: Owned) -> (bool, Option<u8>) {
    let is_right = has_three_blocks(&file);
    (is_right, file.into_vec().pop())
}

#[test]
fn blocks_in_order(rt: HostRuntime) -> Result<(), Fail> {
    assert_eq!(rt; blocks_and_last(three_blocks(rt.alloc())?), (true, Some(3)));
    Ok(())
}
