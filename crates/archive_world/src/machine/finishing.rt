//! The outcome of a run.

ghost use Rattle.std.specs.Prelude.{◌≡◌, IfOk};
ghost use Rattle.tws_best.specs.Best.{collection_text};
ghost use Rattle.archive_world.specs.Outcomes.{outcome_of};

use crate::machine::Machine;
use crate::outcome::Outcome;
use std::alloc::{AllocError, Allocator};
use tws_best::Collection;
use tws_file::{Bytes, Ruleset};

// The text of a collection.
fn text_of<A: Allocator + Copy>(
    alloc: A,
    collection: &Collection<A>,
) -> Result<Bytes<A>, AllocError>
    ensures { IfOk result (λ text. text ≡ collection_text collection.now) }
{
    let mut text = Vec::new(alloc);
    match collection.write_text(&mut text) {
        Ok(()) => Ok(Bytes::of(text)),
        Err(_) => Err(AllocError),
    }
}

impl<A: Allocator + Copy> Machine<A> {
    /// The outcome of all that has happened.
    ///
    /// # Errors
    ///
    /// Out of memory.
    pub(crate) fn outcome(self) -> Result<Outcome<A>, AllocError>
        ensures { IfOk result (λ o. o ≡ outcome_of self) }
    {
        let (lynx, ms) = match self.texts() {
            Ok(texts) => texts,
            Err(fault) => {
                drop(self);
                return Err(fault);
            }
        };
        let Machine {
            net,
            table,
            clients,
            begun,
            taken,
            recovered,
            sent,
            got,
            opened,
            strays,
            ..
        } = self;
        drop(table);
        drop(clients);
        drop(begun);
        drop(strays);
        Ok(Outcome {
            taken,
            recovered,
            sent,
            got,
            opened,
            lynx,
            ms,
            datagrams: net,
        })
    }

    // The texts of the server's Lynx and MS collections.
    fn texts(&self) -> Result<(Bytes<A>, Bytes<A>), AllocError>
        ensures lynx { IfOk result (λ texts. texts.0 ≡ collection_text self.now.server.maps.lynx) }
        ensures ms { IfOk result (λ texts. texts.1 ≡ collection_text self.now.server.maps.ms) }
    {
        let lynx = text_of(self.alloc, self.table.collection(Ruleset::Lynx))?;
        let ms = text_of(self.alloc, self.table.collection(Ruleset::Ms))?;
        Ok((lynx, ms))
    }
}
