//! The layouts of moves in bytes.

ghost use Rattle.std.specs.Prelude.{◌≡◌, ◌≤◌, ℕ, length};
ghost use Rattle.tws_moves.specs.Spelling.{layout_of, piece_length, layout_waits};
ghost use Rattle.tws_moves.specs.Steps.{least_value};

/// How a piece of bytes holds moves: one of the five formats in Tile World's comments.
#[derive(Clone, Copy)]
pub(crate) enum Layout {
    /// Three steps in one byte, each of which waits three ticks.
    ThreeSteps,
    /// A step in one byte.
    ShortStep,
    /// A step in two bytes.
    MiddleStep,
    /// A step in four bytes.
    LongStep,
    /// A code in two to five bytes.
    Code,
}

impl Layout {
    /// The layout of the piece that begins with this byte.
    pub(crate) fn of(first: u8) -> Self
        ensures { result ≡ layout_of first }
    {
        match first % 4 {
            0 => Layout::ThreeSteps,
            1 => Layout::ShortStep,
            2 => Layout::MiddleStep,
            _ if first / 16 % 2 == 0 => Layout::LongStep,
            _ => Layout::Code,
        }
    }

    /// How many moves a piece of this layout holds.
    pub(crate) fn moves(self) -> u64
        ensures count { (n : ℕ) → result ≡ length (layout_waits self n) }
        ensures bound { result ≤ 3 }
    {
        match self {
            Layout::ThreeSteps => 3,
            _ => 1,
        }
    }
}

// The length of a piece, by the low five bits of its first byte.
const LENGTHS: [u8; 32] = [
    1, 1, 2, 4, 1, 1, 2, 4, 1, 1, 2, 4, 1, 1, 2, 4, 1, 1, 2, 2, 1, 1, 2, 3, 1, 1, 2, 4, 1, 1, 2, 5,
];

/// The length of the piece that begins with this byte.
pub(crate) fn piece_length(first: u8) -> usize
    ensures { result ≡ piece_length first }
{
    // Most pieces are one byte long. Other lengths are looked up, since branches on them would often be mispredicted.
    if first % 4 < 2 {
        1
    } else {
        usize::from(LENGTHS[usize::from(first % 32)])
    }
}

// What no piece has as its value.
const NEVER: u64 = 1 << 40;

// From which value on a piece has several bytes and is the shortest for its wait, by the low five bits of its first
// byte.
const LEAST: [u64; 32] = [
    NEVER,
    NEVER,
    1 << 8,
    1 << 16,
    NEVER,
    NEVER,
    1 << 8,
    1 << 16,
    NEVER,
    NEVER,
    1 << 8,
    1 << 16,
    NEVER,
    NEVER,
    1 << 8,
    1 << 16,
    NEVER,
    NEVER,
    1 << 8,
    0,
    NEVER,
    NEVER,
    1 << 8,
    1 << 16,
    NEVER,
    NEVER,
    1 << 8,
    1 << 24,
    NEVER,
    NEVER,
    1 << 8,
    1 << 32,
];

/// From which value on a piece that begins with this byte has several bytes and is the shortest for its wait.
pub(crate) fn least_value(first: u8) -> u64
    ensures { result ≡ least_value first }
{
    LEAST[usize::from(first % 32)]
}
