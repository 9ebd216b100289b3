//! The blocks of the files that are sent.

use test_samples::whole_block;

// A file in two blocks.
#[derive(Clone, Copy)]
pub(crate) struct Blocks {
    pub(crate) first: [u8; 516],
    pub(crate) second: [u8; 220],
}

impl Blocks {
    // A Lynx file as DATA: level 1, BDHP, 100 ticks, 700 moves of one byte each.
    pub(crate) fn new() -> Self {
        let mut first = whole_block(1, 1);
        first[4..32].copy_from_slice(
            b"\x35\x33\x9B\x99\x01\0\0\0\xCC\x02\0\0\x01\0BDHP\0\0\0\0\0\0\x64\0\0\0",
        );
        let mut second = [1; 220];
        second[..4].copy_from_slice(b"\0\x03\0\x02");
        Blocks { first, second }
    }
}
