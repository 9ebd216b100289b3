//! A range of ports, as it is written.

ghost use Rattle.std.specs.Prelude.{IfSome, IfNone};
ghost use Rattle.archive_serving.specs.Ports.{IsPorts};
ghost use Rattle.archive_serving.specs.declared.ports.Ports.{Ports as PortsModel};

use crate::limits::LEAST_PORTS;
use crate::ports::Ports;
use archive_arguments::MAX_PORT;
use command_line::number_up_to;

impl Ports {
    /// The range that a text names, as `FROM-TO`. `None` if it names none.
    pub fn read(text: &str) -> Option<Self>
        ensures some { IfSome result (IsPorts text.now) }
        ensures none { IfNone result ((ports : PortsModel) → IsPorts text.now ports → ⊥) }
    {
        let Some((from, to)) = text.split_once('-') else {
            return None;
        };
        let most = MAX_PORT as u64;
        let Some(first) = number_up_to(from, most) else {
            return None;
        };
        let Some(last) = number_up_to(to, most) else {
            return None;
        };
        if first + u64::from(LEAST_PORTS) <= last + 1 {
            Some(Ports {
                first: first as u16,
                last: last as u16,
            })
        } else {
            None
        }
    }
}
