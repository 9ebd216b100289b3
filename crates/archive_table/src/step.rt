//! What a call of the table returns.

ghost use Rattle.std.specs.Prelude.{◌≡◌, false, None, Some};
ghost use Rattle.tftp_packet.specs.Refusal.{refusal_packet};
ghost use Rattle.tftp_packet.specs.declared.refusal.Refusal.TheVariants.{UnknownTransfer};
ghost use Rattle.archive_table.specs.declared.step_event.StepEvent.TheVariants.{Nothing};
ghost use Rattle.archive_table.specs.Table.{empty_step, sends_from, out_from, grant_of, all};
ghost use Rattle.archive_table.specs.Events.{reported};

use crate::step_event::StepEvent;
use crate::taken::Taken;
use std::alloc::{Allocator, Global};
use std::marker::Model;
use tftp_packet::{Dgram, Endpoint, Out, Refusal};

/// What a call of the table returns.
#[derive(Drop)]
#[derive_where(Debug)]
pub struct Step<A: Allocator = Global> {
    /// The datagram to send, if any.
    pub out: Option<Out>,
    /// Whether a transfer was opened on the spare port.
    pub opened: bool,
    /// The file that this step took, if any: it was received whole.
    pub taken: Option<Taken<A>>,
    /// Whether the transfer at this port ended; the port is then no longer live.
    pub closed: bool,
    pub(crate) event: StepEvent,
}

impl<A: Allocator> Model for Step<A> {
    ghost use Rattle.archive_table.specs.Events.{Reported};

    ghost Value = { Reported };

    ghost use Rattle.archive_table.specs.View.{step_of};

    ghost view = { step_of };
}

impl<A: Allocator> Step<A> {
    /// What the step did.
    pub fn event(&self) -> StepEvent
        ensures { result ≡ self.now.event }
    {
        self.event
    }

    // The empty step.
    pub(crate) fn nothing() -> Self
        ensures { result ≡ reported empty_step Nothing }
    {
        Step {
            out: None,
            opened: false,
            taken: None,
            closed: false,
            event: StepEvent::Nothing,
        }
    }

    // Fills in the datagram to send, if there is one.
    pub(crate) fn set_out(&mut self, port: u16, to: Endpoint, dgram: Option<Dgram>)
        requires silent { self.old.out ≡ None }
        ensures { self.new ≡ record self.old { out = sends_from port to dgram } }
    {
        if let Some(dgram) = dgram {
            self.out = Some(Out {
                from_port: port,
                to,
                dgram,
            });
        }
    }

    // Replies to a packet that arrived at a port from an endpoint other than the peer of its transfer, RFC 1350 section
    // 4.
    #[tactic(auto, using(crate::proofs::Grants::stray_grant))]
    pub(crate) fn answer_stranger(&mut self, port: u16, from: Endpoint)
        requires new { self.old ≡ reported empty_step Nothing }
        ensures step { self.new ≡ reported (record { out = Some (out_from port from (refusal_packet UnknownTransfer)); opened = false; taken = None; closed = false }) Nothing }
        ensures grant { grant_of self.new.out ≡ all }
    {
        self.set_out(port, from, Some(Refusal::UnknownTransfer.dgram()));
    }
}
