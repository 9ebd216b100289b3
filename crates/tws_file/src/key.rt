//! What identifies a level.

ghost use Rattle.std.specs.Prelude.{◌≡◌, ◌↔◌, IsTrue};

use crate::password::Password;
use std::fmt;

/// Identifies a level: its number, and its password of four bytes. Keys are ordered by number, then by password.
#[derive(Clone, Copy, Debug, PartialEq, Eq, PartialOrd, Ord)]
pub struct Key {
    /// The level's number in its set.
    pub number: u16,
    /// Four letters if Tile World wrote it. Any bytes are kept.
    pub password: [u8; 4],
}

impl Key {
    ghost use Rattle.tws_file.specs.Fields.{set_key};

    /// The key that no level has, number 0 with four zero bytes. The record of the level set begins with it.
    pub const SET: Key = Key {
        number: 0,
        password: [0; 4],
    };

    /// Whether this is the key that no level has.
    pub fn is_level_set(self) -> bool
        ensures { IsTrue result ↔ (self ≡ set_key) }
    {
        self == Self::SET
    }
}

/// The number and the password, as `Password` shows it.
impl fmt::Display for Key {
    ghost use Rattle.std.specs.Prelude.{Some};
    ghost use Rattle.tws_file.specs.Words.{key_text};

    ghost output = { λ k. Some (key_text k) };

    fn fmt<W: fmt::Write>(&self, f: &mut fmt::Formatter<W>) -> fmt::Result {
        write!(f, "{} {}", self.number, Password(self.password))
    }
}
