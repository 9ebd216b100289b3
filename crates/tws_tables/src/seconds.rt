//! Ticks as seconds.

ghost use Rattle.std.specs.Prelude.{Some};
ghost use Rattle.tws_tables.specs.Solved.{seconds_text};

use std::fmt;

/// Displays a time, given in ticks, in seconds with two decimals. A second has 20 ticks.
#[derive(Clone, Copy)]
pub struct Seconds(pub u128);

impl fmt::Display for Seconds {
    ghost output = { λ s. Some (seconds_text s.0) };

    fn fmt<W: fmt::Write>(&self, f: &mut fmt::Formatter<W>) -> fmt::Result {
        // A division of 128 bits takes long.
        match u64::try_from(self.0) {
            Ok(ticks) => write!(f, "{}.{}{}", ticks / 20, ticks % 20 / 2, ticks % 2 * 5),
            Err(_) => {
                let ticks = self.0;
                write!(f, "{}.{}{}", ticks / 20, ticks % 20 / 2, ticks % 2 * 5)
            }
        }
    }
}
