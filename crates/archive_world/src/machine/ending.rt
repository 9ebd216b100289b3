//! Files whose keep has an unknown outcome.

ghost use Rattle.std.specs.Prelude.{◌≡◌, false, true, List, Option, OnOk};
ghost use Rattle.std.specs.Str.{bytes_eq};
ghost use Rattle.archive_table.specs.Table.{grant_of, refusal_dgram};
ghost use Rattle.archive_table.specs.Keeper.{Keeping};
ghost use Rattle.archive_model.specs.World.{server_endpoint};
ghost use Rattle.archive_world.specs.Ending.{recovers, EndsBy, FoundBy, LostBy, improves, fault_by};

use crate::datagram::Datagram;
use crate::event_fault::EventFault;
use crate::machine::Machine;
use crate::refusing_keeper::RefusingKeeper;
use crate::server_endpoint::SERVER;
use crate::taken_file::TakenFile;
use archive_table::{Keeper, Step, StepEvent, Taken};
use std::alloc::{AllocError, Allocator};
use tftp_packet::{Dgram, Out, Refusal};
use tws_file::Bytes;

// Whether these are the bytes of this ERROR.
fn is_refusal(dgram: &Dgram, why: Refusal) -> bool
    ensures { result ≡ bytes_eq dgram.now (refusal_dgram why) }
{
    let refusal = why.dgram();
    dgram.bytes() == refusal.bytes()
}

// The fault of a step that has taken no file and sends this.
fn fault_of(out: &Option<Out>) -> EventFault
    ensures { result ≡ fault_by (grant_of out.now) }
{
    let Some(out) = out else {
        return EventFault::Bad;
    };
    if is_refusal(&out.dgram, Refusal::OutOfMemory) {
        return EventFault::Memory;
    }
    if is_refusal(&out.dgram, Refusal::NotKept) {
        return EventFault::NotKept;
    }
    EventFault::Bad
}

// Whether a file was taken that has changed a collection.
fn is_improved(event: StepEvent) -> bool
    ensures { result ≡ improves event }
{
    match event {
        StepEvent::Nothing => false,
        StepEvent::OpenedPut => false,
        StepEvent::OpenedGet(_) => false,
        StepEvent::Refused(_) => false,
        StepEvent::Taken(merged) => merged.better != 0,
        StepEvent::Finished { .. } => false,
        StepEvent::Failed { .. } => false,
    }
}

impl<A: Allocator + Copy> Machine<A> {
    // Records a file that the server has taken at a port, and tells its peer that it was not kept.
    fn recover(&mut self, port: u16, taken: Taken<A>) -> Result<(), AllocError>
        ensures { OnOk result (self.new ≡ recovers port taken self.old) }
    {
        let Taken { peer, file } = taken;
        let one = Bytes::of(file.to_vec(self.alloc)?);
        let other = Bytes::of(file.to_vec(self.alloc)?);
        self.taken.push(TakenFile { peer, file: one })?;
        self.recovered.push(TakenFile { peer, file: other })?;
        let dgram = Refusal::NotKept.dgram();
        let out = Out {
            from_port: port,
            to: peer,
            dgram,
        };
        self.send(SERVER.host, Some(out))
    }

    // Records the step of a keep that the next start finds.
    fn found_step(&mut self, port: u16, step: Step<A>) -> Result<(), EventFault>
        ensures { FoundBy result port step self.old self.new }
    {
        let improved = is_improved(step.event());
        let Step { out, taken, .. } = step;
        let Some(taken) = taken else {
            return Err(fault_of(&out));
        };
        if !improved {
            return Err(EventFault::Bad);
        }
        match self.recover(port, taken) {
            Ok(()) => Ok(()),
            Err(_) => Err(EventFault::Memory),
        }
    }

    // Records the step of a keep that the next start does not find.
    fn lost_step(&mut self, step: Step<A>) -> Result<(), EventFault>
        ensures { LostBy result step self.old self.new }
    {
        let Step { out, taken, .. } = step;
        if taken.is_some() {
            return Err(EventFault::Bad);
        }
        match fault_of(&out) {
            EventFault::NotKept => match self.send(SERVER.host, out) {
                Ok(()) => Ok(()),
                Err(_) => Err(EventFault::Memory),
            },
            fault => Err(fault),
        }
    }

    /// Delivers a datagram to a port of the server, which keeps the collection that its file makes, and answers that it
    /// has not.
    ///
    /// # Errors
    ///
    /// `Bad` if the datagram completes no file that changes a collection; `NotKept` if the keeper has not kept it; out of
    /// memory.
    pub(crate) fn end_found<K: Keeper>(
        &mut self,
        keeper: &mut K,
        d: &Datagram<A>,
    ) -> Result<(), EventFault>
        requires home { self.old.home ≡ server_endpoint }
        ensures { EndsBy result true d.now (K.calls keeper.old) (K.calls keeper.new) self.old self.new }
    {
        let step = self
            .table
            .on_datagram(keeper, d.to.port, d.from, d.bytes.as_slice());
        self.found_step(d.to.port, step)
    }

    /// Delivers a datagram to a port of the server, which does not keep the collection that its file makes.
    ///
    /// # Errors
    ///
    /// `Bad` if the datagram completes no file that changes a collection; out of memory.
    pub(crate) fn end_lost(&mut self, d: &Datagram<A>) -> Result<(), EventFault>
        requires home { self.old.home ≡ server_endpoint }
        ensures { (log : Option (List Keeping)) → EndsBy result false d.now log log self.old self.new }
    {
        let mut refusing = RefusingKeeper;
        let step = self
            .table
            .on_datagram(&mut refusing, d.to.port, d.from, d.bytes.as_slice());
        self.lost_step(step)
    }
}
