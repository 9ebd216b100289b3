//! What a visit changed for the live ports.

ghost use Rattle.std.specs.Prelude.{◌≡◌};
ghost use Rattle.archive_server.specs.Timers.{is_quiet as quiet_change};

/// What a visit to a port, or a time-out, changed for the live ports.
#[derive(Clone, Copy)]
pub(crate) enum Change {
    /// Nothing was received.
    Quiet,
    /// No port was opened or closed, and none of the transfers sent.
    Nothing,
    /// A datagram of this host at the request port was not let in.
    Dropped(u32),
    /// A transfer was opened on this port.
    Opened(u16),
    /// A step at this port sent a datagram to its peer, which has or acknowledges the block of this number.
    Sent(u16, u16),
    /// A step at this port answered a stranger.
    Answered(u16),
    /// The transfer at this port has ended.
    Closed(u16),
}

impl Change {
    /// Whether nothing was received.
    pub(crate) fn is_quiet(self) -> bool
        ensures { result ≡ quiet_change self }
    {
        match self {
            Change::Quiet => true,
            Change::Nothing => false,
            Change::Dropped(_) => false,
            Change::Opened(_) => false,
            Change::Sent(_, _) => false,
            Change::Answered(_) => false,
            Change::Closed(_) => false,
        }
    }
}
