//! The names of the files in the archive's folder.

ghost use Rattle.std.specs.Prelude.{◌≡◌};
ghost use Rattle.archive_keepers.specs.Names.{kept_name, draft_name};

use tws_file::Ruleset;

/// The name of the collection of this ruleset that was kept last.
pub fn kept_name(ruleset: Ruleset) -> &'static str
    ensures { result.now ≡ kept_name «ruleset» }
{
    match ruleset {
        Ruleset::Lynx => "lynx.tws",
        Ruleset::Ms => "ms.tws",
    }
}

/// The name of the text that is written to replace it.
pub fn draft_name(ruleset: Ruleset) -> &'static str
    ensures { result.now ≡ draft_name «ruleset» }
{
    match ruleset {
        Ruleset::Lynx => "lynx.new",
        Ruleset::Ms => "ms.new",
    }
}
