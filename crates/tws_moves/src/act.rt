//! What a player does at a tick.

ghost use Rattle.std.specs.Prelude.{◌≡◌};
ghost use Rattle.tws_moves.specs.Steps.{ticks_limit};

/// What a player does at one tick.
#[derive(Clone, Copy, Debug, PartialEq, Eq)]
pub enum Act {
    /// A step in a direction, numbered 0 to 7 as in Tile World's comments.
    Step(u8),
    /// A move by Tile World's code of nine bits, 0 to 511.
    Code(u16),
}

impl Act {
    /// The waits that a layout can hold before this act are below this.
    pub(crate) fn ticks_limit(self) -> u64
        ensures { result ≡ ticks_limit self }
    {
        match self {
            Act::Step(direction) if direction < 4 => 1 << 27,
            Act::Step(_) => 1 << 11,
            Act::Code(_) => 1 << 26,
        }
    }
}
