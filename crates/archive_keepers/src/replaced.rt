//! What was replaced under a keeper.

ghost use Rattle.std.specs.Prelude.{Some};
ghost use Rattle.archive_keepers.specs.Replaced.{replaced_text};

use crate::names::kept_name;
use std::fmt;
use tws_file::Ruleset;

/// What someone else has replaced or removed under a running server.
#[derive(Clone, Copy, Debug, PartialEq, Eq)]
pub enum Replaced {
    /// The folder: its name leads to another one.
    Folder,
    /// The file with the collection of this ruleset that was kept or loaded last.
    Collection(Ruleset),
}

impl fmt::Display for Replaced {
    ghost output = { λ replaced. Some (replaced_text replaced) };

    fn fmt<W: fmt::Write>(&self, f: &mut fmt::Formatter<W>) -> fmt::Result {
        match self {
            Replaced::Folder => f.write_str("not the folder that was opened"),
            Replaced::Collection(ruleset) => {
                write!(f, "{} is not what was kept", kept_name(*ruleset))
            }
        }
    }
}
