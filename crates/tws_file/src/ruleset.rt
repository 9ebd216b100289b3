//! The ruleset of a file.

ghost use Rattle.std.specs.Prelude.{◌≡◌, ◌≢◌, ◌≤◌, ℕ, List, Some, take, IfSome, IfNone};
ghost use Rattle.tws_file.specs.Fields.{ruleset_code, ruleset_in, ruleset_with};
ghost use Rattle.tws_file.specs.Names.{file_name_of, ruleset_named};
ghost use Rattle.tws_file.specs.Text.{File, IsText};
ghost use Rattle.tws_file.specs.Words.{ruleset_name};

use std::fmt;

/// The rules under which a file's levels were played: byte 4 of the file.
#[derive(Clone, Copy, Debug, PartialEq, Eq)]
pub enum Ruleset {
    /// The rules of the Lynx game.
    Lynx,
    /// The rules of the Windows game.
    Ms,
}

impl Ruleset {
    /// The names of the rulesets.
    pub const NAMES: [&'static str; 2] = ["lynx", "ms"];

    /// The name of this ruleset.
    pub fn name(self) -> &'static str
        ensures { result.now ≡ ruleset_name self }
    {
        match self {
            Ruleset::Lynx => "lynx",
            Ruleset::Ms => "ms",
        }
    }

    /// The ruleset of this name, if there is one.
    pub fn from_name(name: &str) -> Option<Self>
        ensures known { IfSome result (λ «ruleset». name.now ≡ ruleset_name «ruleset») }
        ensures unknown { IfNone result ((«ruleset» : Ruleset) → name.now ≢ ruleset_name «ruleset») }
    {
        if name == Ruleset::Lynx.name() {
            return Some(Ruleset::Lynx);
        }
        if name == Ruleset::Ms.name() {
            return Some(Ruleset::Ms);
        }
        None
    }

    /// The code of this ruleset in byte 4 of a file: 1 for Lynx, 2 for MS.
    pub fn code(self) -> u8
        ensures { result ≡ ruleset_code self }
    {
        match self {
            Ruleset::Lynx => 1,
            Ruleset::Ms => 2,
        }
    }

    /// The ruleset with this code, if there is one.
    pub fn from_code(code: u8) -> Option<Self>
        ensures is { result ≡ ruleset_with code }
        ensures known { IfSome result (λ «ruleset». ruleset_code «ruleset» ≡ code) }
        ensures unknown { IfNone result ((code ≢ 1) × (code ≢ 2)) }
    {
        match code {
            1 => Some(Ruleset::Lynx),
            2 => Some(Ruleset::Ms),
            _ => None,
        }
    }

    /// The ruleset in byte 4 of the solution file that begins with these bytes; `None` if there are fewer than five, or
    /// byte 4 is not the code of a ruleset. Nothing else is checked.
    pub fn of_file(start: &[u8]) -> Option<Self>
        ensures code { result ≡ ruleset_in start.now }
        ensures text { (file : File) (bytes : List ℕ) (n : ℕ) → IsText bytes file → 5 ≤ n → start.now ≡ take n bytes → result ≡ Some file.«ruleset» }
    {
        match start.get(4) {
            Some(code) => Ruleset::from_code(*code),
            None => None,
        }
    }

    /// The name under which the collection of this ruleset is fetched and kept, in ASCII.
    pub fn file_name(self) -> &'static [u8]
        ensures { result.now ≡ file_name_of self }
    {
        match self {
            Ruleset::Lynx => b"lynx.tws",
            Ruleset::Ms => b"ms.tws",
        }
    }

    /// The ruleset whose collection has exactly these bytes as its name, if there is one.
    pub fn from_file_name(name: &[u8]) -> Option<Self>
        ensures is { result ≡ ruleset_named name.now }
        ensures known { IfSome result (λ «ruleset». file_name_of «ruleset» ≡ name.now) }
        ensures unknown { IfNone result ((«ruleset» : Ruleset) → file_name_of «ruleset» ≢ name.now) }
    {
        if name == Ruleset::Lynx.file_name() {
            return Some(Ruleset::Lynx);
        }
        if name == Ruleset::Ms.file_name() {
            return Some(Ruleset::Ms);
        }
        None
    }
}

/// The name of the ruleset, in lower case.
impl fmt::Display for Ruleset {
    ghost use Rattle.std.specs.Prelude.{Some};
    ghost use Rattle.tws_file.specs.Words.{ruleset_name};

    ghost output = { λ «ruleset». Some (ruleset_name «ruleset») };

    fn fmt<W: fmt::Write>(&self, f: &mut fmt::Formatter<W>) -> fmt::Result {
        f.write_str(self.name())
    }
}
