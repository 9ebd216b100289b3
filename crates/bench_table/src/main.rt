//! For the benchmark: a server's table in memory, with downloads of a collection and uploads of files in turn. Each
//! upload is better than the collection in every tenth solution. The first byte of the input is how many transfers are
//! live at a time: `1` for one, or else 64. The second is how long the solutions of the files are: `l` for long ones,
//! or else about as long as those that players send. The third is how many downloads and uploads there are: `+` for 320
//! of each, or else 64.
#![tactic(auto)]

ghost use Rattle.std.specs.Prelude.{◌≤◌, length};
ghost use Rattle.tftp_packet.specs.declared.sizes.TheConstants.{BLOCK_SIZE};

use archive_keepers::NoKeeper;
use archive_table::Table;
use std::alloc::{AllocError, Global};
use std::io::{self, Read};
use tftp_packet::{
    BLOCK_SIZE, Dgram, Endpoint, MAX_DATAGRAM, Packet, decode, encode_read, encode_write,
};
use tws_best::Collection;
use tws_file::Ruleset;

/// The request port.
const REQUEST: u16 = 6969;

/// The port of the first transfer.
const FIRST: u16 = 7000;

/// The opcodes of what clients send (RFC 1350 section 5).
const DATA: u8 = 3;

const ACK: u8 = 4;

/// How many solutions a file has, and how many bytes of moves each has.
#[derive(Clone, Copy)]
struct Shape {
    solutions: u16,
    moves: u32,
}

const USUAL: Shape = Shape {
    solutions: 2000,
    moves: 480,
};

const LONG: Shape = Shape {
    solutions: 10,
    moves: 100_000,
};

/// The number of files that make up the collection.
const FILES: u8 = 4;

/// The number of the first upload that is timed. Those that fill the collection have number 0.
const FIRST_UPLOAD: u16 = 10;

/// A client of the table: its port, which is that of its transfer, the number of its upload, and the bytes that it
/// sends next unless it is done. They are written in place, as in the C program; otherwise copies of whole datagrams
/// would count as time of the table.
#[derive(Clone, Copy)]
struct Client {
    port: u16,
    upload: u16,
    next: [u8; MAX_DATAGRAM],
    len: usize,
    is_done: bool,
}

impl Client {
    // A client with nothing to send yet.
    fn new(port: u16, upload: u16) -> Self {
        Client {
            port,
            upload,
            next: [0; MAX_DATAGRAM],
            len: 0,
            is_done: false,
        }
    }

    // The bytes that it sends next.
    fn bytes(&self) -> &[u8] {
        match self.next.get(..self.len) {
            Some(bytes) => bytes,
            None => &[],
        }
    }

    // Makes a request the next to be sent.
    fn request(&mut self, request: &Dgram) {
        let bytes = request.bytes();
        self.next[..bytes.len()].copy_from_slice(bytes);
        self.len = bytes.len();
    }

    // Makes a packet with a number and a body the next to be sent.
    fn send(&mut self, opcode: u8, number: u16, body: &[u8])
        requires { length body.now ≤ BLOCK_SIZE }
    {
        let [high, low] = number.to_be_bytes();
        self.next[..4].copy_from_slice(&[0, opcode, high, low]);
        self.next[4..4 + body.len()].copy_from_slice(body);
        self.len = 4 + body.len();
    }
}

// The offset of the first ticks byte of a solution in a file.
fn ticks_at(shape: Shape, level: usize) -> usize {
    level
        .wrapping_mul(shape.moves as usize + 20)
        .wrapping_add(24)
}

// Makes every tenth solution in these bytes, which begin at offset `start` of a file, better than earlier uploads did.
fn improve(bytes: &mut [u8], start: usize, shape: Shape, upload: u16) {
    let size = shape.moves as usize + 20;
    for level in start.saturating_sub(24).div_ceil(size)..usize::from(shape.solutions) {
        let Some(ticks) = bytes.get_mut(ticks_at(shape, level).wrapping_sub(start)) else {
            return;
        };
        if level % 10 == usize::from(upload % 10) {
            *ticks = 100 - (upload / 10 % 100) as u8;
        }
    }
}

fn endpoint(port: u16) -> Endpoint {
    Endpoint { host: 2, port }
}

// Appends a solution of this level.
fn add_level(bytes: &mut Vec<u8>, shape: Shape, number: u8, level: u16) -> Result<(), AllocError> {
    bytes.extend_from_slice(&shape.moves.wrapping_add(16).to_le_bytes())?;
    bytes.extend_from_slice(&level.to_le_bytes())?;
    bytes.push(number)?;
    bytes.extend_from_slice(b"BCD\0\0\0\0\0\0\x64\0\0\0")?;
    for _ in 0..shape.moves {
        bytes.push(0x61)?;
    }
    Ok(())
}

// Appends a solution of each level.
fn add_levels(bytes: &mut Vec<u8>, shape: Shape, number: u8) -> Result<(), AllocError> {
    for level in 0..shape.solutions {
        add_level(bytes, shape, number, level)?;
    }
    Ok(())
}

// A file of Lynx solutions, each for another level. Files with different numbers have no level in common.
fn file(alloc: Global, shape: Shape, number: u8) -> Result<Vec<u8>, AllocError> {
    let mut bytes = Vec::from_slice(alloc, b"\x35\x33\x9B\x99\x01\0\0\0")?;
    add_levels(&mut bytes, shape, number)?;
    Ok(bytes)
}

// The bytes of a file from this offset on.
fn rest(file: &[u8], from: usize) -> &[u8] {
    if from <= file.len() {
        &file[from..]
    } else {
        &[]
    }
}

// The first block of these bytes.
fn first_block(bytes: &[u8]) -> &[u8]
    ensures { length result.now ≤ 512 }
{
    match bytes.get(..BLOCK_SIZE) {
        Some(block) => block,
        None => bytes,
    }
}

// Block `n` of a file.
fn block(file: &[u8], n: u16) -> &[u8]
    ensures { length result.now ≤ 512 }
{
    first_block(rest(file, usize::from(n.saturating_sub(1)) * BLOCK_SIZE))
}

// Sets what a client sends next, in reply to what it received; it is done once its whole file was transferred.
fn reply(client: &mut Client, shape: Shape, file: &[u8], came: &Dgram) {
    match decode(came.bytes()) {
        Ok(Packet::Data { block, .. }) => client.send(ACK, block, &[]),
        Ok(Packet::Ack { block: last }) if usize::from(last) * BLOCK_SIZE <= file.len() => {
            let next = last.saturating_add(1);
            client.send(DATA, next, block(file, next));
            let start = usize::from(last) * BLOCK_SIZE;
            improve(&mut client.next[4..], start, shape, client.upload);
        }
        _ => client.is_done = true,
    }
}

// Passes what a client sends to the table, and handles the reply.
fn turn(table: &mut Table, shape: Shape, file: &[u8], client: &mut Client) {
    let from = endpoint(client.port);
    let step = table.on_datagram(&mut NoKeeper, client.port, from, client.bytes());
    match &step.out {
        Some(out) => reply(client, shape, file, &out.dgram),
        None => client.is_done = true,
    }
}

// Starts a client, which asks the table for a transfer at its port.
fn open(
    table: &mut Table,
    shape: Shape,
    file: &[u8],
    port: u16,
    upload: u16,
    reads: bool,
) -> Client {
    let mut client = Client::new(port, upload);
    if reads {
        client.request(&encode_read(b"lynx.tws"));
    } else {
        client.request(&encode_write(b"upload.tws"));
    }
    if port == table.request() || table.is_live(port) {
        client.is_done = true;
        return client;
    }
    let step = table.on_request(port, endpoint(port), client.bytes());
    match &step.out {
        Some(out) => reply(&mut client, shape, file, &out.dgram),
        None => client.is_done = true,
    }
    client
}

// Makes one turn of each client. Returns how many datagrams they sent.
fn turns(table: &mut Table, shape: Shape, file: &[u8], clients: &mut [Client]) -> u64 {
    let mut sent: u64 = 0;
    for client in clients.iter_mut() {
        if !client.is_done {
            turn(table, shape, file, client);
            sent = sent.wrapping_add(1);
        }
    }
    sent
}

// Ends the dally of the clients' transfers, which wait for a repeated last block.
fn end(table: &mut Table, clients: &[Client]) {
    for client in clients {
        table.on_timeout(client.port);
        table.on_timeout(client.port);
    }
}

// Which transfers are made at a time: how many, the number of the first upload, and whether the first one is a download, as
// then every second one is.
#[derive(Clone, Copy)]
struct Live {
    count: u16,
    upload: u16,
    reads: bool,
}

// Opens these transfers.
fn open_all(
    table: &mut Table,
    shape: Shape,
    file: &[u8],
    live: Live,
    clients: &mut Vec<Client>,
) -> Result<(), AllocError> {
    for i in 0..live.count {
        let port = FIRST.wrapping_add(i);
        let upload = live.upload.wrapping_add(i / 2);
        clients.push(open(table, shape, file, port, upload, (i % 2 == 0) == live.reads))?;
    }
    Ok(())
}

// Makes turns of the clients until all are done. Returns how many datagrams they sent.
fn finish_all(table: &mut Table, shape: Shape, file: &[u8], clients: &mut [Client]) -> u64 {
    let mut sent: u64 = 0;
    for _ in 0..u64::from(u32::MAX) {
        let now = turns(table, shape, file, clients);
        if now == 0 {
            break;
        }
        sent = sent.wrapping_add(now);
    }
    end(table, clients);
    sent
}

// Makes these transfers. Returns how many datagrams their clients sent.
fn round(
    alloc: Global,
    table: &mut Table,
    shape: Shape,
    file: &[u8],
    live: Live,
) -> Result<u64, AllocError> {
    let mut clients = Vec::new(alloc);
    open_all(table, shape, file, live, &mut clients)?;
    Ok(finish_all(table, shape, file, &mut clients))
}

// Uploads one of the files that make up the collection.
fn fill_by(alloc: Global, table: &mut Table, shape: Shape, number: u8) -> Result<u64, AllocError> {
    let one = Live {
        count: 1,
        upload: 0,
        reads: false,
    };
    round(alloc, table, shape, &file(alloc, shape, number)?, one)
}

// Uploads all of them.
fn fill(alloc: Global, table: &mut Table, shape: Shape) -> Result<(), AllocError> {
    for number in 1..=FILES {
        fill_by(alloc, table, shape, number)?;
    }
    Ok(())
}

// Makes `rounds` rounds of `count` transfers with this file. Returns how many datagrams their clients sent.
fn serve_file(
    alloc: Global,
    table: &mut Table,
    shape: Shape,
    file: &[u8],
    rounds: u16,
    count: u16,
) -> Result<u64, AllocError> {
    let mut sent: u64 = 0;
    for i in 0..rounds {
        let live = Live {
            count,
            upload: FIRST_UPLOAD.wrapping_add(i.wrapping_mul(count) / 2),
            reads: i % 2 == 0,
        };
        sent = sent.wrapping_add(round(alloc, table, shape, file, live)?);
    }
    Ok(sent)
}

// The same with the first of the files.
fn serve(
    alloc: Global,
    table: &mut Table,
    shape: Shape,
    rounds: u16,
    count: u16,
) -> Result<u64, AllocError> {
    serve_file(alloc, table, shape, &file(alloc, shape, 1)?, rounds, count)
}

// The sum of these bytes.
fn sum_of(bytes: &[u8]) -> u64 {
    let mut sum: u64 = 0;
    for byte in bytes {
        sum = sum.wrapping_add(u64::from(*byte));
    }
    sum
}

// The sum of all bytes of a collection's text; `None` if there is no memory for that.
fn sum_of_text(alloc: Global, collection: &Collection) -> Option<u64> {
    let mut text = Vec::new(alloc);
    match collection.write_text(&mut text) {
        Ok(()) => Some(sum_of(&text)),
        Err(_) => None,
    }
}

// Fills a table, and serves as these words of the input say. Returns how many datagrams the clients sent.
fn run(alloc: Global, table: &mut Table, words: [u8; 3]) -> Result<u64, AllocError> {
    let times = match words[2] {
        b'+' => 5,
        _ => 1,
    };
    let (rounds, count) = match words[0] {
        b'1' => (128 * times, 1),
        _ => (2 * times, 64),
    };
    let shape = match words[1] {
        b'l' => LONG,
        _ => USUAL,
    };
    fill(alloc, table, shape)?;
    serve(alloc, table, shape, rounds, count)
}

fn main(rt: HostRuntime) -> io::Result<()> {
    let mut words = [0; 3];
    rt.stdin().read(&mut words)?;
    let mut table = Table::new(rt.alloc(), REQUEST);
    let sent = run(rt.alloc(), &mut table, words);
    let collection = table.collection(Ruleset::Lynx);
    let size = collection.text_len();
    match (sent, sum_of_text(rt.alloc(), collection)) {
        (Ok(sent), Some(sum)) => {
            println!(rt; "{sent} datagrams, {size} bytes with the sum {sum}")
        }
        _ => Err(io::Error::from(AllocError)),
    }
}
