//! The step for a datagram at a transfer's port.

ghost use Rattle.std.specs.Prelude.{◌≡◌, ◌≢◌, ◌≤◌, ℕ, List, None, Some, true, length};
ghost use Rattle.std.specs.Map.{remove_entry};
ghost use Rattle.tftp_packet.specs.Packet.{ack, data_block, error, read, write};
ghost use Rattle.archive_table.specs.Table.{empty_step, transfer_at, IsTable, closes, table_datagram, grant_of, all, unkept, at_port, with_live, Merges, refusal_dgram};
ghost use Rattle.archive_table.specs.Steps.{packet_live, file_done, reply_grant};
ghost use Rattle.archive_table.specs.Keeper.{StepKeeps};
ghost use Rattle.archive_table.specs.declared.step_event.StepEvent.TheVariants.{Nothing};
ghost use Rattle.archive_table.specs.Table.{End as Ended};
ghost use Rattle.archive_table.specs.Events.{IsDataEvent, IsDatagramEvent, IsPacketEvent, block_of, made, reported};

use crate::collections::merge_file;
use crate::end::End;
use crate::keeper::Keeper;
use crate::step::Step;
use crate::step_event::{FailureCause, StepEvent};
use crate::table::Table;
use crate::taken::Taken;
use std::alloc::Allocator;
use tftp_ends::{Received, SendState};
use tftp_packet::{Dgram, Endpoint, Packet, Refusal, decode};

// The functions that make a step. It is created once and written in place, since each of them would copy it to return
// it.
impl<A: Allocator + Copy> Table<A> {
    // Ends the transfer at a port, which is this event.
    pub(super) fn close(&mut self, port: u16, event: StepEvent, step: &mut Step<A>)
        ensures server { self.new ≡ with_live (remove_entry (at_port port) self.old.live) self.old }
        ensures step { step.new ≡ record step.old { closed = true; event = event } }
        ensures fits { IsTable self.new }
    {
        self.live.remove(port);
        step.closed = true;
        step.event = event;
    }

    // Fails the transfer at a port, of which `block` was the last block received, and sends the peer an ERROR with the
    // reason.
    fn fail(&mut self, port: u16, peer: Endpoint, block: u16, why: Refusal, step: &mut Step<A>)
        requires new { step.old ≡ reported empty_step Nothing }
        ensures server { self.new ≡ (closes port peer (Some (refusal_dgram why)) self.old).server }
        ensures step { step.new ≡ reported (closes port peer (Some (refusal_dgram why)) self.old).step (StepEvent.Failed block (FailureCause.Refused why)) }
        ensures fits { IsTable self.new }
    {
        step.set_out(port, peer, Some(why.dgram()));
        let event = StepEvent::Failed {
            block,
            why: FailureCause::Refused(why),
        };
        self.close(port, event, step);
    }

    // Handles ACK `n`, received from `from` at a port.
    #[tactic(auto, using(crate::proofs::Live::remove_set, crate::proofs::Live::set_same, crate::proofs::Replies::data_grant))]
    fn on_ack(&mut self, port: u16, from: Endpoint, n: u16, step: &mut Step<A>)
        requires new { step.old ≡ reported empty_step Nothing }
        ensures server { self.new ≡ (packet_live (transfer_at port self.old) (grant_of step.new.out) self.new.maps port from (ack n) self.old).server }
        ensures step { made step.new ≡ (packet_live (transfer_at port self.old) (grant_of step.new.out) self.new.maps port from (ack n) self.old).step }
        ensures event { IsPacketEvent (transfer_at port self.old) from (ack n) self.old.maps self.new.maps (made step.new) step.new.event }
        ensures maps { self.new.maps ≡ self.old.maps }
        ensures untaken { step.new.taken ≡ None }
        ensures grant { grant_of step.new.out ≡ all }
        ensures fits { IsTable self.new }
    {
        let Some(transfer) = self.live.get_mut(port) else {
            return;
        };
        if !transfer.is_with(from) {
            step.answer_stranger(port, from);
            return;
        }
        let peer = transfer.peer;
        let finished = transfer.finished();
        let End::Sending(sender) = &mut transfer.end else {
            return;
        };
        if sender.advance(n) {
            step.set_out(port, peer, Some(sender.data()));
            return;
        }
        match sender.state() {
            SendState::Running => {}
            SendState::Finished | SendState::TimedOut => self.close(port, finished, step),
        }
    }

    // Handles a whole file, before whose last block `block` blocks were received: it is merged into the collection of its
    // ruleset and taken, or the transfer is closed.
    fn on_file<K: Keeper>(
        &mut self,
        keeper: &mut K,
        port: u16,
        peer: Endpoint,
        block: u16,
        file: Received<A>,
        ack: Option<Dgram>,
        step: &mut Step<A>,
    )
        requires acks { reply_grant ack ≡ all }
        requires new { step.old ≡ reported empty_step Nothing }
        ensures server { self.new ≡ (file_done (grant_of step.new.out) self.new.maps port peer file ack self.old).server }
        ensures step { made step.new ≡ (file_done (grant_of step.new.out) self.new.maps port peer file ack self.old).step }
        ensures event { (end : Ended) → block_of end ≡ block → IsDataEvent step.new.taken step.new.closed end self.old.maps self.new.maps step.new.out step.new.event }
        ensures merges { Merges step.new.taken self.old.maps self.new.maps }
        ensures keeps { StepKeeps (grant_of step.new.out) (Some (record { peer = peer; file = file })) self.old.maps self.new.maps (K.calls keeper.old) (K.calls keeper.new) }
        ensures untouched { grant_of step.new.out ≢ unkept → self.new.maps ≡ self.old.maps → keeper.new ≡ keeper.old }
        ensures fits { IsTable self.new }
    {
        match merge_file(self.alloc, &mut self.lynx, &mut self.ms, keeper, &file) {
            Ok(merged) => {
                step.set_out(port, peer, ack);
                step.taken = Some(Taken { peer, file });
                step.event = StepEvent::Taken(merged);
            }
            Err(why) => self.fail(port, peer, block, why, step),
        }
    }

    // Handles DATA `n`, received from `from` at a port.
    #[tactic(auto, using(crate::proofs::Live::remove_set, crate::proofs::Live::set_same, crate::proofs::Replies::data_reply, crate::proofs::Replies::past_grant, crate::proofs::Replies::memory_grant, crate::proofs::Replies::sent_grant, crate::proofs::Live::done_come))]
    fn on_data<K: Keeper>(
        &mut self,
        keeper: &mut K,
        port: u16,
        from: Endpoint,
        n: u16,
        body: &[u8],
        step: &mut Step<A>,
    )
        requires short { length body.now ≤ 512 }
        requires new { step.old ≡ reported empty_step Nothing }
        ensures server { self.new ≡ (packet_live (transfer_at port self.old) (grant_of step.new.out) self.new.maps port from (data_block n body.now) self.old).server }
        ensures step { made step.new ≡ (packet_live (transfer_at port self.old) (grant_of step.new.out) self.new.maps port from (data_block n body.now) self.old).step }
        ensures event { IsPacketEvent (transfer_at port self.old) from (data_block n body.now) self.old.maps self.new.maps (made step.new) step.new.event }
        ensures merges { Merges step.new.taken self.old.maps self.new.maps }
        ensures keeps { StepKeeps (grant_of step.new.out) (packet_live (transfer_at port self.old) all self.old.maps port from (data_block n body.now) self.old).step.taken self.old.maps self.new.maps (K.calls keeper.old) (K.calls keeper.new) }
        ensures untouched { grant_of step.new.out ≢ unkept → self.new.maps ≡ self.old.maps → keeper.new ≡ keeper.old }
        ensures fits { IsTable self.new }
    {
        let Some(transfer) = self.live.get_mut(port) else {
            return;
        };
        if !transfer.is_with(from) {
            step.answer_stranger(port, from);
            return;
        }
        let peer = transfer.peer;
        let End::Receiving(incoming) = &mut transfer.end else {
            return;
        };
        let block = incoming.count();
        let came = incoming.on_data(n, body);
        match came {
            Err(fault) => self.fail(port, peer, block, fault.refusal(), step),
            Ok((ack, file)) => match file {
                None => step.set_out(port, peer, ack),
                Some(file) => self.on_file(keeper, port, peer, block, file, ack, step),
            },
        }
    }

    // Handles a request, received from `from` at a transfer's port.
    fn on_misplaced_request(&mut self, port: u16, from: Endpoint, step: &mut Step<A>)
        requires new { step.old ≡ reported empty_step Nothing }
        ensures server { self.new ≡ self.old }
        ensures reads { (name mode : List ℕ) → record { server = self.new; step = made step.new } ≡ (packet_live (transfer_at port self.old) (grant_of step.new.out) self.new.maps port from (read name mode) self.old) }
        ensures writes { (name mode : List ℕ) → record { server = self.new; step = made step.new } ≡ (packet_live (transfer_at port self.old) (grant_of step.new.out) self.new.maps port from (write name mode) self.old) }
        ensures event { step.new.event ≡ Nothing }
        ensures untaken { step.new.taken ≡ None }
        ensures grant { grant_of step.new.out ≡ all }
        ensures fits { IsTable self.new }
    {
        let Some(transfer) = self.live.get(port) else {
            return;
        };
        if !transfer.is_with(from) {
            step.answer_stranger(port, from);
        }
    }

    // Handles an ERROR, received from `from` at a port. It is never answered.
    fn on_error(&mut self, port: u16, from: Endpoint, step: &mut Step<A>)
        requires new { step.old ≡ reported empty_step Nothing }
        ensures step { (code : ℕ) (text : List ℕ) → record { server = self.new; step = made step.new } ≡ (packet_live (transfer_at port self.old) (grant_of step.new.out) self.new.maps port from (error code text) self.old) }
        ensures event { (code : ℕ) (text : List ℕ) → IsPacketEvent (transfer_at port self.old) from (error code text) self.old.maps self.new.maps (made step.new) step.new.event }
        ensures maps { self.new.maps ≡ self.old.maps }
        ensures untaken { step.new.taken ≡ None }
        ensures grant { grant_of step.new.out ≡ all }
        ensures fits { IsTable self.new }
    {
        let Some(transfer) = self.live.get(port) else {
            return;
        };
        if transfer.is_with(from) {
            let event = transfer.broken_by(FailureCause::PeerError);
            self.close(port, event, step);
        }
    }

    // Handles a datagram of these bytes, received from `from` at a transfer's port. The port is looked up once, and
    // once more if the transfer ends. It is not inlined: where it is, LLVM no longer leaves out the copies of the step
    // in its caller.
    #[inline(never)]
    #[tactic(auto, using(crate::proofs::Decoded::packet_come, crate::proofs::Decoded::nothing_come))]
    pub(super) fn handle<K: Keeper>(
        &mut self,
        keeper: &mut K,
        port: u16,
        from: Endpoint,
        bytes: &[u8],
        step: &mut Step<A>,
    )
        requires new { step.old ≡ reported empty_step Nothing }
        ensures server { self.new ≡ (table_datagram (grant_of step.new.out) self.new.maps port from bytes.now self.old).server }
        ensures step { made step.new ≡ (table_datagram (grant_of step.new.out) self.new.maps port from bytes.now self.old).step }
        ensures event { IsDatagramEvent (transfer_at port self.old) from bytes.now self.old.maps self.new.maps (made step.new) step.new.event }
        ensures merges { Merges step.new.taken self.old.maps self.new.maps }
        ensures keeps { StepKeeps (grant_of step.new.out) (table_datagram all self.old.maps port from bytes.now self.old).step.taken self.old.maps self.new.maps (K.calls keeper.old) (K.calls keeper.new) }
        ensures untouched { grant_of step.new.out ≢ unkept → self.new.maps ≡ self.old.maps → keeper.new ≡ keeper.old }
        ensures fits { IsTable self.new }
    {
        match decode(bytes) {
            Ok(Packet::Ack { block }) => self.on_ack(port, from, block, step),
            Ok(Packet::Data { block, body }) => self.on_data(keeper, port, from, block, body, step),
            Ok(Packet::Error { .. }) => self.on_error(port, from, step),
            Ok(Packet::Read { .. }) => self.on_misplaced_request(port, from, step),
            Ok(Packet::Write { .. }) => self.on_misplaced_request(port, from, step),
            Err(_) => {
                // The field is read because only then is the invariant known here.
                let _request = self.request;
            }
        }
    }
}
