//! Look-ups of hosts by their names.

ghost use Rattle.std.specs.Prelude.{◌≡◌, ℕ, List, Option, IfSome, None};

use std::fs::File;
use std::net::{Net, SocketAddr, ToSocketAddrs};
use std::random::RandomSource;
use std::rt::Files;
use system_files::System;

/// Finds hosts by their names.
pub trait Resolver {
    /// The host that a look-up of a name finds, or that it finds none, if that is known.
    ghost host_of: { Self → List ℕ → Option (Option ℕ) };

    /// Looks up a host by its name. Returns its first IPv4 address as a number, whose most significant byte is the first
    /// of the four numbers as they are written, or `None` if no address is found.
    fn look_up(&self, name: &str) -> Option<u32>
        ensures { IfSome (host_of self.now name.now) (λ host. result ≡ host) };
}

impl<P: Files<File = File> + Net + RandomSource + AllocGlobal + Copy> Resolver for System<P> {
    ghost host_of = { λ _ _. None };

    fn look_up(&self, name: &str) -> Option<u32> {
        let Ok(found) = (name, 0u16).to_socket_addrs(&self.0) else {
            return None;
        };
        for address in found {
            if let SocketAddr::V4(address) = address {
                return Some(address.ip().to_bits());
            }
        }
        None
    }
}
