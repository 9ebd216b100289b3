//! Which requests a server is asked to let in.

ghost use Rattle.std.specs.Prelude.{IfSome, IfNone};
ghost use Rattle.archive_serving.specs.Serve.{HasPolicies, HasPutters, IsNoPutters, given_putters};

use crate::host_list::read_hosts;
use crate::serve::ServeArguments;
use archive_server::{Policies, Putters};

impl ServeArguments {
    // Which hosts may put. `None` if what was given is not a list of hosts.
    fn putters(&self) -> Option<Putters>
        ensures some { IfSome result (HasPutters (given_putters self.now)) }
        ensures none { IfNone result (IsNoPutters (given_putters self.now)) }
    {
        let Some(text) = &self.put_from else {
            return Some(Putters::All);
        };
        match read_hosts(text.as_str()) {
            Some(hosts) => Some(Putters::Hosts(hosts)),
            None => None,
        }
    }

    /// Which requests are to be let in. `None` if what was given for the hosts that may put is not a list of at most
    /// `PUTTERS` of them.
    pub fn policies(&self) -> Option<Policies>
        ensures some { IfSome result (HasPolicies self.now) }
        ensures none { IfNone result (IsNoPutters (given_putters self.now)) }
    {
        match self.putters() {
            Some(putters) => Some(Policies {
                per_host: self.per_host as usize,
                putters,
            }),
            None => None,
        }
    }
}
