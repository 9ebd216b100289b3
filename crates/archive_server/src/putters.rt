//! Which hosts may put.

ghost use Rattle.std.specs.Prelude.{◌≡◌};
ghost use Rattle.archive_server.specs.Turn.{may_put};
ghost use Rattle.archive_server.specs.declared.putters.TheConstants.{PUTTERS};

/// The most hosts that may be named.
pub const PUTTERS: usize = 16;

/// Which hosts may put.
#[derive(Clone, Copy, Debug, PartialEq, Eq)]
pub enum Putters {
    /// Every host.
    All,
    /// These hosts. A number 0 is none.
    Hosts([u32; PUTTERS]),
}

impl Putters {
    /// Whether this host may put.
    pub fn allows(&self, host: u32) -> bool
        ensures { result ≡ may_put host self.now }
    {
        match self {
            Putters::All => true,
            Putters::Hosts(hosts) => host != 0 && hosts.contains(&host),
        }
    }
}
