//! How a replay begins.

ghost use Rattle.std.specs.Prelude.{◌≡◌, IfOk, IfErr, OnOk};
ghost use Rattle.archive_table.specs.Keeper.{TableFails, texts_of};
ghost use Rattle.archive_model.specs.World.{taken_with};
ghost use Rattle.archive_world.specs.Inside.{first_taken};
ghost use Rattle.archive_world.specs.Exits.{BeginsAt};

use crate::first_texts::FirstTexts;
use crate::machine::Machine;
use crate::server_endpoint::SERVER;
use crate::taken_file::TakenFile;
use archive_table::{Keeper, LoadFault};
use std::alloc::{AllocError, Allocator};
use tws_file::Bytes;

impl<A: Allocator + Copy> Machine<A> {
    // Records a text that the server had at first, if any, as a file taken.
    fn give_one(&mut self, text: Option<Vec<u8, A>>) -> Result<(), AllocError>
        ensures { OnOk result (self.new ≡ record self.old { past = record self.old.past { taken = taken_with (first_taken (texts_of text)) self.old.taken } }) }
    {
        let Some(text) = text else {
            return Ok(());
        };
        let file = Bytes::of(text);
        self.taken.push(TakenFile { peer: SERVER, file })?;
        Ok(())
    }

    // Records the texts that the server had at first.
    fn give(&mut self, texts: FirstTexts<A>) -> Result<(), AllocError>
        ensures { OnOk result (self.new ≡ record self.old { past = record self.old.past { taken = taken_with (first_taken (texts_of texts.ms)) (taken_with (first_taken (texts_of texts.lynx)) self.old.taken) } }) }
    {
        let FirstTexts { lynx, ms } = texts;
        self.give_one(lynx)?;
        self.give_one(ms)
    }

    /// Returns the start: nothing was sent, and the server has what its keeper has. The keeper's texts are the first files
    /// taken.
    ///
    /// # Errors
    ///
    /// Those of `Table::load`.
    pub(crate) fn load<K: Keeper>(alloc: A, keeper: &mut K) -> Result<Self, LoadFault>
        ensures begins { IfOk result (λ m. BeginsAt (K.calls keeper.old) m) }
        ensures fault { IfErr result (TableFails (K.calls keeper.old)) }
        ensures calls { K.calls keeper.new ≡ K.calls keeper.old }
    {
        let mut texts = match FirstTexts::load(alloc, keeper) {
            Ok(texts) => texts,
            Err(fault) => return Err(LoadFault::Keep(fault)),
        };
        let mut machine = Machine::new(alloc);
        match machine.restart(&mut texts) {
            Ok(()) => {}
            Err(fault) => {
                drop(texts);
                drop(machine);
                return Err(fault);
            }
        }
        match machine.give(texts) {
            Ok(()) => Ok(machine),
            Err(_) => {
                drop(machine);
                Err(LoadFault::Memory)
            }
        }
    }
}
