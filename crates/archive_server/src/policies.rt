//! Which requests a server lets in.

ghost use Rattle.std.specs.Prelude.{◌≡◌};
ghost use Rattle.archive_server.specs.Turn.{open_policies};

use crate::putters::Putters;
use archive_table::LIVE;

/// Which requests a server lets in, in rounds. A request that is not let in is dropped, as the network may lose it.
#[derive(Clone, Copy, Debug, PartialEq, Eq)]
pub struct Policies {
    /// How many transfers one host may have. Clients on the server's own host, at addresses of the loopback range, are not
    /// counted.
    pub per_host: usize,
    /// Which hosts may put.
    pub putters: Putters,
}

impl Policies {
    /// Those that let every request in: a host may have `LIVE` transfers.
    pub fn open() -> Self
        ensures { result ≡ open_policies }
    {
        Policies {
            per_host: LIVE,
            putters: Putters::All,
        }
    }
}
