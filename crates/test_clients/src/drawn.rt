//! Drawn steps of clients.

// A thousand runs of one client, each of sixty inputs that may fit or not. A plain program, written from the table of a
// client's states, predicts what the client sends and its state after each input.
use archive_client::{Cause, Get, Put, State};
use std::alloc::Global;
use std::test::Fail;
use test_samples::{Draws, RRQ_MS, SERVER, UNKNOWN_TRANSFER, WRQ, at};
use tftp_packet::{Endpoint, Out};
use tws_file::Ruleset;

const SIZES: [usize; 5] = [0, 1, 512, 700, 1024];

#[derive(Clone, Copy)]
enum Input {
    Request,
    Data(u16, usize),
    Ack(u16),
    Error(u16),
    Malformed,
    TimeOut,
}

#[derive(Clone, Copy)]
enum Reply {
    Request,
    Data(u16),
    Ack(u16),
    Stray,
}

// Byte i of each file.
fn byte(i: usize) -> u8 {
    (i % 251) as u8
}

// Where block `n` of a file of this length begins, and where it ends.
fn block(len: usize, n: u16) -> (usize, usize) {
    let start = usize::from(n.saturating_sub(1)).wrapping_mul(512);
    (start.min(len), start.wrapping_add(512).min(len))
}

fn push_packet(out: &mut Vec<u8>, opcode: u8, n: u16) -> Result<(), Fail> {
    let [high, low] = n.to_be_bytes();
    out.extend_from_slice(&[0, opcode, high, low])?;
    Ok(())
}

// Block `n` of a file, if `len` bytes of it are sent.
fn push_data(out: &mut Vec<u8>, n: u16, len: usize) -> Result<(), Fail> {
    push_packet(out, 3, n)?;
    let start = usize::from(n.saturating_sub(1)).wrapping_mul(512);
    for i in 0..len {
        out.push(byte(start.wrapping_add(i)))?;
    }
    Ok(())
}

fn push_input(out: &mut Vec<u8>, input: Input) -> Result<(), Fail> {
    match input {
        Input::Request => out.extend_from_slice(RRQ_MS)?,
        Input::Data(n, len) => push_data(out, n, len)?,
        Input::Ack(n) => push_packet(out, 4, n)?,
        Input::Error(code) => {
            push_packet(out, 5, code)?;
            out.push(0)?;
        }
        // An ACK with one byte too many.
        Input::Malformed => out.extend_from_slice(b"\0\x04\0\0\0")?,
        Input::TimeOut => {}
    }
    Ok(())
}

fn input_bytes(alloc: Global, input: Input) -> Result<Vec<u8>, Fail> {
    let mut bytes = Vec::new(alloc);
    push_input(&mut bytes, input)?;
    Ok(bytes)
}

// The plain program. A put has a length, a get has none.
#[derive(Clone, Copy)]
struct Plain {
    put: Option<usize>,
    peer: Option<u16>,
    state: State,
    // The current block of a put, the last block of a get.
    block: u16,
    misses: u16,
    // How many bytes a get has.
    got: usize,
}

impl Plain {
    fn over(&self) -> bool {
        match self.state {
            State::Running => false,
            State::Got => self.misses == 2,
            State::Sent | State::Failed(_) => true,
        }
    }

    fn on_timeout(&mut self) -> Option<Reply> {
        if self.over() {
            return None;
        }
        self.misses = self.misses.wrapping_add(1);
        if self.state == State::Got {
            return None;
        }
        if self.misses == 5 {
            self.state = State::Failed(Cause::TimedOut);
            return None;
        }
        match (self.peer, self.put) {
            (None, _) => Some(Reply::Request),
            (Some(_), Some(_)) => Some(Reply::Data(self.block)),
            (Some(_), None) => Some(Reply::Ack(self.block)),
        }
    }

    fn on_ack(&mut self, len: usize, port: u16, n: u16) -> Option<Reply> {
        if n != self.block {
            return None;
        }
        let last = len / 512 + 1;
        if self.peer.is_some() && usize::from(n) == last {
            self.state = State::Sent;
            return None;
        }
        self.peer = Some(port);
        self.misses = 0;
        self.block = n.wrapping_add(1);
        Some(Reply::Data(self.block))
    }

    fn on_data(&mut self, port: u16, n: u16, len: usize) -> Option<Reply> {
        if self.state == State::Running && n == self.block.wrapping_add(1) {
            self.peer = Some(port);
            self.misses = 0;
            self.block = n;
            self.got = self.got.wrapping_add(len);
            if len < 512 {
                self.state = State::Got;
            }
            return Some(Reply::Ack(n));
        }
        if n > 0 && n == self.block {
            return Some(Reply::Ack(n));
        }
        None
    }

    fn on_datagram(&mut self, from: Endpoint, input: Input) -> Option<Reply> {
        if self.over() || from.host != SERVER.host {
            return None;
        }
        let is_stray = self.peer.is_some() && self.peer != Some(from.port);
        match (input, self.put) {
            (Input::Malformed | Input::TimeOut, _) => None,
            (Input::Error(_), _) if is_stray || self.state == State::Got => None,
            (Input::Error(code), _) => {
                self.state = State::Failed(Cause::Refused(code));
                None
            }
            _ if is_stray => Some(Reply::Stray),
            (Input::Ack(n), Some(len)) => self.on_ack(len, from.port, n),
            (Input::Data(n, len), None) => self.on_data(from.port, n, len),
            _ => None,
        }
    }

    // The next input: mostly one that continues the transfer.
    fn draw(&self, draws: &mut Draws) -> Input {
        let near = self.block.wrapping_add(draws.below(3)).saturating_sub(1);
        match draws.below(16) {
            0 => Input::Request,
            1 => Input::Error(draws.below(9)),
            2 => Input::Malformed,
            3 | 4 | 5 => Input::TimeOut,
            6 => Input::Ack(near),
            7 => Input::Data(near, 512),
            8 => Input::Data(near, usize::from(draws.below(512))),
            9 if draws.below(3) == 0 => Input::Data(self.block.wrapping_add(1), 100),
            10 | 11 => Input::TimeOut,
            _ if self.put.is_some() => Input::Ack(self.block),
            _ => Input::Data(self.block.wrapping_add(1), 512),
        }
    }
}

// The source of the next input: mostly the peer, or the first port if there is none.
fn source(plain: &Plain, draws: &mut Draws) -> Endpoint {
    let peer = plain.peer.unwrap_or(4000);
    match draws.below(10) {
        0 => Endpoint {
            host: 2,
            port: peer,
        },
        1 => at(peer.wrapping_add(1)),
        _ => at(peer),
    }
}

fn push_reply(out: &mut Vec<u8>, plain: &Plain, reply: Reply) -> Result<(), Fail> {
    match (reply, plain.put) {
        (Reply::Request, Some(_)) => out.extend_from_slice(WRQ)?,
        (Reply::Request, None) => out.extend_from_slice(RRQ_MS)?,
        (Reply::Data(n), len) => {
            let (start, end) = block(len.unwrap_or(0), n);
            push_data(out, n, end.saturating_sub(start))?;
        }
        (Reply::Ack(n), _) => push_packet(out, 4, n)?,
        (Reply::Stray, _) => out.extend_from_slice(UNKNOWN_TRANSFER)?,
    }
    Ok(())
}

fn reply_bytes(alloc: Global, plain: &Plain, reply: Reply) -> Result<Vec<u8>, Fail> {
    let mut bytes = Vec::new(alloc);
    push_reply(&mut bytes, plain, reply)?;
    Ok(bytes)
}

// Whether `out` is what must be sent: a request goes to the server's port, a refusal to the stranger, all else to the
// peer.
fn fits(
    alloc: Global,
    plain: &Plain,
    from: u16,
    reply: Option<Reply>,
    out: &Option<Out>,
) -> Result<bool, Fail> {
    match (reply, out) {
        (None, None) => Ok(true),
        (Some(reply), Some(out)) => {
            let port = match reply {
                Reply::Request => 6969,
                Reply::Stray => from,
                Reply::Data(_) | Reply::Ack(_) => plain.peer.unwrap_or(0),
            };
            let bytes = reply_bytes(alloc, plain, reply)?;
            Ok(out.from_port == 5000 && out.to == at(port) && out.dgram.bytes() == bytes.as_slice())
        }
        _ => Ok(false),
    }
}

fn start(put: Option<usize>) -> Plain {
    Plain {
        put,
        peer: None,
        state: State::Running,
        block: 0,
        misses: 0,
        got: 0,
    }
}

// An input for both, and the reply that the plain program predicts.
#[derive(Drop)]
struct Drawn {
    from: Endpoint,
    // `None` for a time-out.
    bytes: Option<Vec<u8>>,
    reply: Option<Reply>,
}

// Draws the next input, and gives it to the plain program.
fn draw(alloc: Global, draws: &mut Draws, plain: &mut Plain) -> Result<Drawn, Fail> {
    let input = plain.draw(draws);
    let from = source(plain, draws);
    let (bytes, reply) = match input {
        Input::TimeOut => (None, plain.on_timeout()),
        _ => (
            Some(input_bytes(alloc, input)?),
            plain.on_datagram(from, input),
        ),
    };
    Ok(Drawn { from, bytes, reply })
}

// Fails unless a client has sent what was predicted, and is in the predicted state.
fn agree(
    alloc: Global,
    plain: &Plain,
    drawn: &Drawn,
    out: &Option<Out>,
    state: State,
    over: bool,
) -> Result<(), Fail> {
    if !fits(alloc, plain, drawn.from.port, drawn.reply, out)? {
        return Err(Fail::new("the client sends something else"));
    }
    if state != plain.state || over != plain.over() {
        return Err(Fail::new("the client is elsewhere"));
    }
    Ok(())
}

// One input for a put.
fn step_put(
    alloc: Global,
    draws: &mut Draws,
    plain: &mut Plain,
    client: &mut Put,
) -> Result<(), Fail> {
    let drawn = draw(alloc, draws, plain)?;
    let out = match &drawn.bytes {
        Some(bytes) => client.on_datagram(drawn.from, bytes),
        None => client.on_timeout(),
    };
    agree(alloc, plain, &drawn, &out, client.state(), client.over())
}

// All inputs for a put of a file of this length. Returns the state in which it ended.
fn play_put(alloc: Global, draws: &mut Draws, client: &mut Put, len: usize) -> Result<State, Fail> {
    let mut plain = start(Some(len));
    for _ in 0..60 {
        step_put(alloc, draws, &mut plain, client)?;
    }
    Ok(plain.state)
}

fn file_of(alloc: Global, len: usize) -> Result<Vec<u8>, Fail> {
    let mut file = Vec::new(alloc);
    for i in 0..len {
        file.push(byte(i))?;
    }
    Ok(file)
}

fn run_put(alloc: Global, draws: &mut Draws, len: usize) -> Result<State, Fail> {
    match Put::start(5000, SERVER, file_of(alloc, len)?) {
        Ok((mut client, _request)) => play_put(alloc, draws, &mut client, len),
        Err(_fault) => Err(Fail::new("too long")),
    }
}

fn is_file(bytes: &[u8], len: usize) -> bool {
    bytes.len() == len && bytes.iter().enumerate().all(|(i, b)| *b == byte(i))
}

// Whether a get hands out its file exactly if the plain one has got it, and otherwise comes back as the same client.
fn ends_alike(alloc: Global, client: Get, plain: &Plain) -> bool {
    match client.into_file() {
        Ok(file) => match file.to_vec(alloc) {
            Ok(bytes) => plain.state == State::Got && is_file(&bytes, plain.got),
            Err(_fault) => false,
        },
        Err(client) => plain.state != State::Got && client.state() == plain.state,
    }
}

// One input for a get.
fn step_get(
    alloc: Global,
    draws: &mut Draws,
    plain: &mut Plain,
    client: &mut Get,
) -> Result<(), Fail> {
    let drawn = draw(alloc, draws, plain)?;
    let out = match &drawn.bytes {
        Some(bytes) => client.on_datagram(drawn.from, bytes),
        None => client.on_timeout(),
    };
    agree(alloc, plain, &drawn, &out, client.state(), client.over())
}

// All inputs for a get. Returns the plain one.
fn play_get(alloc: Global, draws: &mut Draws, client: &mut Get) -> Result<Plain, Fail> {
    let mut plain = start(None);
    for _ in 0..60 {
        step_get(alloc, draws, &mut plain, client)?;
    }
    Ok(plain)
}

fn run_get(alloc: Global, draws: &mut Draws) -> Result<State, Fail> {
    let (mut client, _request) = Get::start(alloc, 5000, SERVER, Ruleset::Ms);
    let plain = play_get(alloc, draws, &mut client)?;
    if ends_alike(alloc, client, &plain) {
        Ok(plain.state)
    } else {
        Err(Fail::new("another file, or another client"))
    }
}

// How many runs ended in each state.
#[derive(Clone, Copy)]
struct Ended {
    sent: u32,
    got: u32,
    refused: u32,
    timed_out: u32,
}

impl Ended {
    fn count(&mut self, state: State) {
        match state {
            State::Sent => self.sent = self.sent.wrapping_add(1),
            State::Got => self.got = self.got.wrapping_add(1),
            State::Failed(Cause::Refused(_)) => self.refused = self.refused.wrapping_add(1),
            State::Failed(Cause::TimedOut) => self.timed_out = self.timed_out.wrapping_add(1),
            State::Running | State::Failed(_) => {}
        }
    }
}

fn run_one(alloc: Global, draws: &mut Draws, is_put: bool) -> Result<State, Fail> {
    if is_put {
        let size = SIZES.get(usize::from(draws.below(5))).copied().unwrap_or(0);
        run_put(alloc, draws, size.min(2000))
    } else {
        run_get(alloc, draws)
    }
}

fn count_runs(alloc: Global) -> Result<Ended, Fail> {
    let mut draws = Draws::new(11);
    let mut ended = Ended {
        sent: 0,
        got: 0,
        refused: 0,
        timed_out: 0,
    };
    for i in 0..1000 {
        ended.count(run_one(alloc, &mut draws, i % 2 == 0)?);
    }
    Ok(ended)
}

#[test]
fn drawn_clients(rt: HostRuntime) -> Result<(), Fail> {
    let ended = count_runs(rt.alloc())?;
    let rows = [
        ("sent", ended.sent, 50),
        ("got", ended.got, 50),
        ("refused", ended.refused, 50),
        ("timed out", ended.timed_out, 10),
    ];
    for (state, count, least) in rows {
        assert!(rt; count > least, "{state}: {count}");
    }
    Ok(())
}
