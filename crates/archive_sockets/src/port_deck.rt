//! The order in which ports for transfers are taken.

ghost use Rattle.std.specs.Prelude.{◌≡◌, ◌<◌, ◌≤◌, ◌+◌, ◌-◌, ◌/◌, vec_len, IfOk, Some, None};
ghost use Rattle.archive_sockets.specs.Dealing.{AreDistinct, AreFrom};
ghost use Rattle.archive_sockets.specs.Drawing.{Draws};

use rand_chacha::ChaCha20Rng;
use rand_core::{Rng, SeedableRng};
use std::alloc::{AllocError, Global};

/// The least port for private use, RFC 6335 section 6.
pub(crate) const FIRST: u16 = 49152;

/// The greatest one.
pub(crate) const LAST: u16 = 65535;

/// A range of ports in an unpredictable order. A port that was taken is taken again only after at least half of all the ports;
/// one that was given back is taken next.
#[derive(Drop)]
pub(crate) struct PortDeck {
    // The later a port was taken, the later it stands here.
    ports: Vec<u16>,
    random: ChaCha20Rng,
    returned: Option<u16>,
    ghost some: { 2 ≤ vec_len ports },
    ghost distinct: { AreDistinct ports.items },
}

// The ports of a range, in order.
fn all_ports(alloc: Global, first: u16, last: u16) -> Result<Vec<u16>, AllocError>
    requires positive { 1 ≤ first }
    requires range { first < last }
    ensures range { IfOk result (λ ports. AreFrom first ports.items (last + 1 - first)) }
    ensures some { IfOk result (λ ports. 2 ≤ vec_len ports) }
    ensures distinct { IfOk result (λ ports. AreDistinct ports.items) }
{
    let mut ports = Vec::new(alloc);
    for i in 0..last - first + 1 {
        ports.push(first + i)?;
    }
    Ok(ports)
}

// Takes the port at a place in the first half of a deck, which comes last then.
fn take_at(ports: &mut Vec<u16>, place: usize) -> u16
    requires near { place < vec_len ports.old / 2 }
    requires distinct { AreDistinct ports.old.items }
    ensures drawn { Draws ports.old.items ports.new.items result }
    ensures len { vec_len ports.new ≡ vec_len ports.old }
    ensures distinct { AreDistinct ports.new.items }
{
    let port = ports.remove(place);
    ports.push_reserved(port);
    port
}

impl PortDeck {
    /// Returns a deck of the ports from `first` to `last`, whose order the seed decides.
    ///
    /// # Errors
    ///
    /// Out of memory.
    pub(crate) fn new(
        alloc: Global,
        seed: [u8; 32],
        first: u16,
        last: u16,
    ) -> Result<Self, AllocError>
        requires positive { 1 ≤ first }
        requires range { first < last }
        ensures range { IfOk result (λ deck. AreFrom first deck.ports.items (last + 1 - first)) }
    {
        Ok(PortDeck {
            ports: all_ports(alloc, first, last)?,
            random: ChaCha20Rng::from_seed(seed),
            returned: None,
        })
    }

    // The place of the port to be taken next: in the first half.
    fn draw(&mut self) -> usize
        ensures near { result < vec_len self.old.ports / 2 }
        ensures ports { self.new.ports ≡ self.old.ports }
        ensures returned { self.new.returned ≡ self.old.returned }
    {
        let half = self.ports.len() / 2;
        self.random.next_u32() as usize % half
    }

    /// Takes a port.
    pub(crate) fn take(&mut self) -> u16
        ensures returned { (port : _) → self.old.returned ≡ Some port → result ≡ port }
        ensures drawn { self.old.returned ≡ None → Draws self.old.ports.items self.new.ports.items result }
        ensures once { self.new.returned ≡ None }
    {
        if let Some(port) = self.returned.take() {
            return port;
        }
        let place = self.draw();
        take_at(&mut self.ports, place)
    }

    /// Gives a port back that was not used: it is taken next.
    pub(crate) fn give_back(&mut self, port: u16)
        ensures { self.new ≡ record self.old { returned = Some port } }
    {
        self.returned = Some(port);
    }
}
