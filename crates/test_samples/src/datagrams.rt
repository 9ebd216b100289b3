//! Datagrams that several tests send.

/// Requests to write a file and to read each collection.
pub const WRQ: &[u8; 19] = b"\0\x02upload.tws\0octet\0";

pub const RRQ_LYNX: &[u8; 17] = b"\0\x01lynx.tws\0octet\0";

pub const RRQ_MS: &[u8; 15] = b"\0\x01ms.tws\0octet\0";

pub const ACK_0: &[u8; 4] = b"\0\x04\0\0";

pub const ACK_1: &[u8; 4] = b"\0\x04\0\x01";

pub const ACK_2: &[u8; 4] = b"\0\x04\0\x02";

/// ERRORs of the server and of clients.
pub const UNKNOWN_TRANSFER: &[u8; 21] = b"\0\x05\0\x05unknown transfer\0";

pub const NOT_KEPT: &[u8; 13] = b"\0\x05\0\0not kept\0";

pub const BUSY: &[u8; 16] = b"\0\x05\0\0server busy\0";

pub const OUT_OF_MEMORY: &[u8; 18] = b"\0\x05\0\x03out of memory\0";

pub const FILE_TOO_LONG: &[u8; 18] = b"\0\x05\0\x03file too long\0";

/// DATA 1 with each of the files `EMPTY_LYNX`, `EMPTY_MS`, `HUNDRED`, `NINETY` and `UNREADABLE`.
pub const DATA_EMPTY_LYNX: &[u8; 12] = b"\0\x03\0\x01\x35\x33\x9B\x99\x01\0\0\0";

pub const DATA_EMPTY_MS: &[u8; 12] = b"\0\x03\0\x01\x35\x33\x9B\x99\x02\0\0\0";

pub const DATA_HUNDRED: &[u8; 32] =
    b"\0\x03\0\x01\x35\x33\x9B\x99\x01\0\0\0\x10\0\0\0\x01\0BDHP\0\0\0\0\0\0\x64\0\0\0";

pub const DATA_NINETY: &[u8; 32] =
    b"\0\x03\0\x01\x35\x33\x9B\x99\x01\0\0\0\x10\0\0\0\x01\0BDHP\0\0\0\0\0\0\x5A\0\0\0";

pub const DATA_UNREADABLE: &[u8; 11] = b"\0\x03\0\x01\x35\x33\x9B\x98\x02\0\0";

/// DATA with this number and a whole block, each byte of which is `byte`.
pub fn whole_block(number: u16, byte: u8) -> [u8; 516] {
    let [high, low] = number.to_be_bytes();
    let mut data = [byte; 516];
    data[..4].copy_from_slice(&[0, 3, high, low]);
    data
}
