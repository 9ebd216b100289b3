//! The ports that a server opens for transfers.

ghost use Rattle.std.specs.Prelude.{◌≤◌, ◌+◌};
ghost use Rattle.archive_serving.specs.declared.limits.TheConstants.{LEAST_PORTS};

/// A range of at least `LEAST_PORTS` ports.
#[derive(Clone, Copy, Debug, PartialEq, Eq)]
pub struct Ports {
    /// The least port.
    pub first: u16,
    /// The greatest port.
    pub last: u16,
    ghost positive: { 1 ≤ first },
    ghost enough: { first + LEAST_PORTS ≤ last + 1 },
}
