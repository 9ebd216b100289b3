//! A plain server to compare with.

// A server as plain lists, slow and simple, written from the tables of docs/FORMATS.md.
use crate::plain_file::{Solution, copy, improve, join, read, text};
use crate::plain_packet::{Packet, ack, data, parse};
use std::alloc::{AllocError, Global};
use std::mem;
use tftp_packet::Endpoint;
use tws_file::Ruleset;

const REQUEST: u16 = 6969;

const MAX_FILE: usize = 33_553_919;

#[derive(Drop)]
pub(crate) enum End {
    Sending {
        text: Vec<u8>,
        block: usize,
        misses: usize,
    },
    Receiving {
        file: Vec<u8>,
        count: usize,
        misses: usize,
    },
    // The file is taken.
    Waiting {
        count: usize,
        misses: usize,
    },
}

#[derive(Drop)]
pub(crate) struct Transfer {
    pub(crate) port: u16,
    pub(crate) peer: Endpoint,
    pub(crate) end: End,
}

// A collection that a keeper is given, and whether it keeps it.
#[derive(Drop)]
pub(crate) struct Keeping {
    pub(crate) ruleset: Ruleset,
    pub(crate) text: Vec<u8>,
    pub(crate) keeps: bool,
}

// What a step returns, and what the keeper is given in it.
#[derive(Drop)]
pub(crate) struct Said {
    pub(crate) out: Option<(u16, Endpoint, Vec<u8>)>,
    pub(crate) opened: bool,
    pub(crate) taken: Option<(Endpoint, Vec<u8>)>,
    pub(crate) closed: bool,
    pub(crate) kept: Option<Keeping>,
}

#[derive(Drop)]
pub(crate) struct Plain {
    alloc: Global,
    lynx: Vec<Solution>,
    ms: Vec<Solution>,
    pub(crate) live: Vec<Transfer>,
}

fn silent() -> Said {
    Said {
        out: None,
        opened: false,
        taken: None,
        closed: false,
        kept: None,
    }
}

fn says(port: u16, to: Endpoint, bytes: Vec<u8>) -> Said {
    Said {
        out: Some((port, to, bytes)),
        opened: false,
        taken: None,
        closed: false,
        kept: None,
    }
}

impl Plain {
    pub(crate) fn new(alloc: Global) -> Self {
        Plain {
            alloc,
            lynx: Vec::new(alloc),
            ms: Vec::new(alloc),
            live: Vec::new(alloc),
        }
    }

    pub(crate) fn text(&self, ruleset: Ruleset) -> Result<Vec<u8>, AllocError> {
        text(self.alloc, ruleset, self.collection(ruleset))
    }

    pub(crate) fn place(&self, port: u16) -> Option<usize> {
        for (i, transfer) in self.live.iter().enumerate() {
            if transfer.port == port {
                return Some(i);
            }
        }
        None
    }

    // The least live port above `after`.
    pub(crate) fn next_port(&self, after: u16) -> Option<u16> {
        let mut least = None;
        for transfer in &self.live {
            if transfer.port > after && least.is_none_or(|port| transfer.port < port) {
                least = Some(transfer.port);
            }
        }
        least
    }

    fn refuse(&self, to: Endpoint, error: &[u8]) -> Result<Said, AllocError> {
        Ok(says(REQUEST, to, Vec::from_slice(self.alloc, error)?))
    }

    // What the transfer at this place of the list sends at a time-out.
    fn repeat(&self, i: usize) -> Result<Said, AllocError> {
        let Some(transfer) = self.live.get(i) else {
            return Ok(silent());
        };
        let bytes = match &transfer.end {
            End::Sending { text, block, .. } => data(self.alloc, text, *block)?,
            End::Receiving { count, .. } => ack(self.alloc, *count)?,
            End::Waiting { .. } => return Ok(silent()),
        };
        Ok(says(transfer.port, transfer.peer, bytes))
    }

    // Opens a transfer, which sends its first packet.
    fn open(&mut self, port: u16, peer: Endpoint, end: End) -> Result<Said, AllocError> {
        let i = self.live.len();
        self.live.push(Transfer { port, peer, end })?;
        let mut said = self.repeat(i)?;
        said.opened = true;
        Ok(said)
    }

    // Ends the transfer at this place of the list, if there is one.
    fn end(&mut self, i: usize) -> bool {
        if i >= self.live.len() {
            return false;
        }
        let _ended = self.live.remove(i);
        true
    }

    // The same as a step.
    fn close(&mut self, i: usize) -> Said {
        let mut said = silent();
        said.closed = self.end(i);
        said
    }

    // The same with an ERROR to its peer.
    fn fail(
        &mut self,
        i: usize,
        port: u16,
        peer: Endpoint,
        error: &[u8],
    ) -> Result<Said, AllocError> {
        let mut said = says(port, peer, Vec::from_slice(self.alloc, error)?);
        said.closed = self.end(i);
        Ok(said)
    }

    pub(crate) fn on_request(
        &mut self,
        spare: u16,
        from: Endpoint,
        bytes: &[u8],
    ) -> Result<Said, AllocError> {
        match parse(bytes) {
            Packet::Read { name, mode } => {
                if !mode.eq_ignore_ascii_case(b"octet") {
                    return self.refuse(from, b"\0\x05\0\0octet only\0");
                }
                self.on_read(spare, from, name)
            }
            Packet::Write { mode } => {
                if !mode.eq_ignore_ascii_case(b"octet") {
                    return self.refuse(from, b"\0\x05\0\0octet only\0");
                }
                self.on_write(spare, from)
            }
            _ => Ok(silent()),
        }
    }

    fn on_write(&mut self, spare: u16, from: Endpoint) -> Result<Said, AllocError> {
        if self.live.len() == 64 {
            return self.refuse(from, b"\0\x05\0\0server busy\0");
        }
        let end = End::Receiving {
            file: Vec::new(self.alloc),
            count: 0,
            misses: 0,
        };
        self.open(spare, from, end)
    }

    fn on_read(&mut self, spare: u16, from: Endpoint, name: &[u8]) -> Result<Said, AllocError> {
        if name == b"lynx.tws".as_slice() {
            return self.on_named(spare, from, Ruleset::Lynx);
        }
        if name == b"ms.tws".as_slice() {
            return self.on_named(spare, from, Ruleset::Ms);
        }
        self.refuse(from, b"\0\x05\0\x01no such file\0")
    }

    fn on_named(
        &mut self,
        spare: u16,
        from: Endpoint,
        ruleset: Ruleset,
    ) -> Result<Said, AllocError> {
        if self.live.len() == 64 {
            return self.refuse(from, b"\0\x05\0\0server busy\0");
        }
        let text = self.text(ruleset)?;
        if text.len() > MAX_FILE {
            return self.refuse(from, b"\0\x05\0\0collection too long\0");
        }
        self.send(spare, from, text)
    }

    // Opens a transfer that sends this text.
    fn send(&mut self, spare: u16, from: Endpoint, text: Vec<u8>) -> Result<Said, AllocError> {
        let end = End::Sending {
            text,
            block: 1,
            misses: 0,
        };
        self.open(spare, from, end)
    }

    // `keeps` is whether a collection that has to be kept is kept.
    pub(crate) fn on_datagram(
        &mut self,
        port: u16,
        from: Endpoint,
        bytes: &[u8],
        keeps: bool,
    ) -> Result<Said, AllocError> {
        let Some(i) = self.place(port) else {
            return Ok(silent());
        };
        let is_peer = match self.live.get(i) {
            Some(transfer) => transfer.peer == from,
            None => false,
        };
        match parse(bytes) {
            Packet::Malformed => Ok(silent()),
            Packet::Error if is_peer => Ok(self.close(i)),
            Packet::Error => Ok(silent()),
            _ if !is_peer => {
                let error = b"\0\x05\0\x05unknown transfer\0";
                Ok(says(port, from, Vec::from_slice(self.alloc, error)?))
            }
            Packet::Ack { n } => self.on_ack(i, n),
            Packet::Data { n, body } => self.on_data(i, n, body, keeps),
            Packet::Read { .. } | Packet::Write { .. } => Ok(silent()),
        }
    }

    fn on_ack(&mut self, i: usize, n: usize) -> Result<Said, AllocError> {
        let Some(transfer) = self.live.get_mut(i) else {
            return Ok(silent());
        };
        let End::Sending {
            text,
            block,
            misses,
        } = &mut transfer.end
        else {
            return Ok(silent());
        };
        if n != *block {
            return Ok(silent());
        }
        if n == text.len() / 512 + 1 {
            return Ok(self.close(i));
        }
        *block = n.wrapping_add(1);
        *misses = 0;
        self.repeat(i)
    }

    fn on_data(
        &mut self,
        i: usize,
        n: usize,
        body: &[u8],
        keeps: bool,
    ) -> Result<Said, AllocError> {
        let Some(transfer) = self.live.get_mut(i) else {
            return Ok(silent());
        };
        let (port, peer) = (transfer.port, transfer.peer);
        match &mut transfer.end {
            End::Receiving {
                file,
                count,
                misses,
            } if n == count.wrapping_add(1) => {
                if n == 65535 && body.len() == 512 {
                    return self.fail(i, port, peer, b"\0\x05\0\x03file too long\0");
                }
                file.extend_from_slice(body)?;
                *count = n;
                *misses = 0;
                if body.len() < 512 {
                    let file = mem::replace(file, Vec::new(self.alloc));
                    return self.on_file(i, n, file, keeps);
                }
                Ok(says(port, peer, ack(self.alloc, n)?))
            }
            End::Receiving { count, .. } | End::Waiting { count, .. } if n == *count && n > 0 => {
                Ok(says(port, peer, ack(self.alloc, n)?))
            }
            _ => Ok(silent()),
        }
    }

    fn collection(&self, ruleset: Ruleset) -> &[Solution] {
        match ruleset {
            Ruleset::Lynx => &self.lynx,
            Ruleset::Ms => &self.ms,
        }
    }

    fn replace(&mut self, ruleset: Ruleset, collection: Vec<Solution>) {
        match ruleset {
            Ruleset::Lynx => self.lynx = collection,
            Ruleset::Ms => self.ms = collection,
        }
    }

    // The solutions of a collection and these, of which the better ones stay.
    fn joined(
        &self,
        ruleset: Ruleset,
        solutions: Vec<Solution>,
    ) -> Result<Vec<Solution>, AllocError> {
        let mut joined = copy(self.alloc, self.collection(ruleset))?;
        join(&mut joined, solutions)?;
        Ok(joined)
    }

    // Gives the keeper these solutions, and takes them for a collection if it `keeps` them.
    fn keep(
        &mut self,
        ruleset: Ruleset,
        solutions: Vec<Solution>,
        keeps: bool,
    ) -> Result<Option<Keeping>, AllocError> {
        let text = text(self.alloc, ruleset, &solutions)?;
        if keeps {
            self.replace(ruleset, solutions);
        }
        Ok(Some(Keeping {
            ruleset,
            text,
            keeps,
        }))
    }

    // Merges the solutions of a file. Returns what the keeper is given, if they change the collection, which is
    // replaced only if `keeps`.
    fn merge(
        &mut self,
        ruleset: Ruleset,
        solutions: Vec<Solution>,
        keeps: bool,
    ) -> Result<Option<Keeping>, AllocError> {
        if !improve(self.collection(ruleset), &solutions) {
            return Ok(None);
        }
        let joined = self.joined(ruleset, solutions)?;
        self.keep(ruleset, joined, keeps)
    }

    // Merges a file, if it is one. Returns what the keeper is given.
    fn merge_file(&mut self, file: &[u8], keeps: bool) -> Result<Option<Keeping>, AllocError> {
        match read(self.alloc, file)? {
            Some((ruleset, solutions)) => self.merge(ruleset, solutions, keeps),
            None => Ok(None),
        }
    }

    // Handles the whole file of the transfer at this place of the list.
    fn on_file(
        &mut self,
        i: usize,
        n: usize,
        file: Vec<u8>,
        keeps: bool,
    ) -> Result<Said, AllocError> {
        let kept = self.merge_file(&file, keeps)?;
        let mut said = self.end_file(i, n, file, kept.is_some() && !keeps)?;
        said.kept = kept;
        Ok(said)
    }

    // Takes that file, or ends its transfer if it was not kept.
    fn end_file(
        &mut self,
        i: usize,
        n: usize,
        file: Vec<u8>,
        unkept: bool,
    ) -> Result<Said, AllocError> {
        if !unkept {
            return self.take(i, n, file);
        }
        let Some(transfer) = self.live.get(i) else {
            return Ok(silent());
        };
        let (port, peer) = (transfer.port, transfer.peer);
        self.fail(i, port, peer, b"\0\x05\0\0not kept\0")
    }

    // Takes the file of the transfer at this place of the list.
    fn take(&mut self, i: usize, n: usize, file: Vec<u8>) -> Result<Said, AllocError> {
        let Some(transfer) = self.live.get_mut(i) else {
            return Ok(silent());
        };
        transfer.end = End::Waiting {
            count: n,
            misses: 0,
        };
        let mut said = says(transfer.port, transfer.peer, ack(self.alloc, n)?);
        said.taken = Some((transfer.peer, file));
        Ok(said)
    }

    pub(crate) fn on_timeout(&mut self, port: u16) -> Result<Said, AllocError> {
        let Some(i) = self.place(port) else {
            return Ok(silent());
        };
        let Some(transfer) = self.live.get_mut(i) else {
            return Ok(silent());
        };
        let (misses, most) = match &mut transfer.end {
            End::Sending { misses, .. } | End::Receiving { misses, .. } => (misses, 4),
            End::Waiting { misses, .. } => (misses, 1),
        };
        if *misses == most {
            return Ok(self.close(i));
        }
        *misses = misses.wrapping_add(1);
        self.repeat(i)
    }
}
