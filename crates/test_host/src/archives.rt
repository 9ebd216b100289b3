//! A put and a get over sockets of the system, a turn of each end at a time.

// A server and a client, each with a wire of its own on this host.
use crate::wires::{listening, loopback};
use archive_client::State;
use archive_keepers::NoKeeper;
use archive_runs::{GetRun, PutRun};
use archive_server::{Server, serve_turns};
use archive_sockets::UdpWire;
use std::alloc::Global;
use std::test::Fail;
use test_samples::HUNDRED;
use tws_file::Ruleset;

// More turns than each end needs for a file of one block.
const TURNS: u64 = 8;

// A server at its wire, and a client's wire.
#[derive(Drop)]
struct Ends {
    server: Server,
    wire: UdpWire<HostRuntime>,
    port: u16,
    client: UdpWire<HostRuntime>,
}

impl Ends {
    fn open(rt: HostRuntime) -> Result<Self, Fail> {
        let (wire, port) = listening(rt)?;
        Ok(Ends {
            server: Server::new(rt.alloc(), port),
            wire,
            port,
            client: UdpWire::new(rt),
        })
    }

    // Makes a turn of the server. Returns how many files were taken.
    fn serve(&mut self) -> u64 {
        serve_turns(&mut self.wire, &mut NoKeeper, &mut self.server, 1)
    }

    // Makes turns of the server and of a put. Returns how many files were taken.
    fn put_on(&mut self, run: &mut PutRun) -> u64 {
        let mut taken = 0_u64;
        for _turn in 0..TURNS {
            taken = taken.wrapping_add(self.serve());
            run.turn(&mut self.client);
        }
        taken
    }

    // Makes turns of the server and of a get. Returns how many files were taken.
    fn get_on(&mut self, run: &mut GetRun) -> u64 {
        let mut taken = 0_u64;
        for _turn in 0..TURNS {
            taken = taken.wrapping_add(self.serve());
            run.turn(&mut self.client);
        }
        taken
    }

    // Puts a file. Returns how many files were taken, and whether it was sent.
    fn put(&mut self, alloc: Global, file: &[u8]) -> Result<(u64, bool), Fail> {
        let file = Vec::from_slice(alloc, file)?;
        let Ok(mut run) = PutRun::begin(&mut self.client, loopback(self.port), file) else {
            return Err(Fail::new("no put has begun"));
        };
        let taken = self.put_on(&mut run);
        Ok((taken, run.client().state() == State::Sent))
    }

    // Gets a collection. Returns how many files were taken, and whether it is this file.
    fn get(&mut self, alloc: Global, file: &[u8]) -> Result<(u64, bool), Fail> {
        let server = loopback(self.port);
        let Ok(mut run) = GetRun::begin(alloc, &mut self.client, server, Ruleset::Lynx) else {
            return Err(Fail::new("no get has begun"));
        };
        let taken = self.get_on(&mut run);
        Ok((taken, has_file(alloc, &run, file)))
    }
}

// Whether a get has this file.
fn has_file(alloc: Global, run: &GetRun, file: &[u8]) -> bool {
    match run.client().file() {
        Some(got) => match got.to_vec(alloc) {
            Ok(bytes) => bytes.as_slice() == file,
            Err(_) => false,
        },
        None => false,
    }
}

// The file of 28 bytes goes to the server and comes back, and the server has two transfers' ends behind it: the put's
// dallies, and the get's is over.
fn puts_and_gets(
    alloc: Global,
    ends: &mut Ends,
) -> Result<((u64, bool), (u64, bool), usize), Fail> {
    let put = ends.put(alloc, HUNDRED)?;
    let got = ends.get(alloc, HUNDRED)?;
    Ok((put, got, ends.server.table().live()))
}

fn new_ends_put_and_get(rt: HostRuntime) -> Result<((u64, bool), (u64, bool), usize), Fail> {
    let mut ends = Ends::open(rt)?;
    puts_and_gets(rt.alloc(), &mut ends)
}

#[test]
fn a_put_and_a_get_over_loopback(rt: HostRuntime) -> Result<(), Fail> {
    assert_eq!(rt; new_ends_put_and_get(rt)?, ((1, true), (0, true), 1));
    Ok(())
}
