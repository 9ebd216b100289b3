//! The words that a line begins with, and those of `begin` and `unknown-keep` lines.

ghost use Rattle.std.specs.Prelude.{◌≡◌, false, true};
ghost use Rattle.schedule_text.specs.Words.{verb_word, verb_in, word_count, kind_word, kind_in, ruleset_in, found_word, found_in};
ghost use Rattle.tws_file.specs.Words.{ruleset_name};

use tws_file::Ruleset;

/// The first word of a line.
#[derive(Clone, Copy, Debug, PartialEq, Eq)]
pub enum Verb {
    Begin,
    Deliver,
    ClientTimeout,
    ServerTimeout,
    Stray,
    Restart,
    UnknownKeep,
}

impl Verb {
    fn word(self) -> &'static [u8]
        ensures { result.now ≡ verb_word self }
    {
        match self {
            Verb::Begin => b"begin",
            Verb::Deliver => b"deliver",
            Verb::ClientTimeout => b"client-timeout",
            Verb::ServerTimeout => b"server-timeout",
            Verb::Stray => b"stray",
            Verb::Restart => b"restart",
            Verb::UnknownKeep => b"unknown-keep",
        }
    }

    /// How many words its line has.
    pub(crate) fn word_count(self) -> usize
        ensures { result ≡ word_count self }
    {
        match self {
            Verb::Begin => 5,
            Verb::Deliver => 3,
            Verb::ClientTimeout => 3,
            Verb::ServerTimeout => 2,
            Verb::Stray => 6,
            Verb::Restart => 1,
            Verb::UnknownKeep => 3,
        }
    }

    /// The verb that is this word, if one is.
    pub(crate) fn from_word(word: &[u8]) -> Option<Self>
        ensures { result ≡ verb_in word.now }
    {
        if word == Verb::Begin.word() {
            return Some(Verb::Begin);
        }
        if word == Verb::Deliver.word() {
            return Some(Verb::Deliver);
        }
        if word == Verb::ClientTimeout.word() {
            return Some(Verb::ClientTimeout);
        }
        if word == Verb::ServerTimeout.word() {
            return Some(Verb::ServerTimeout);
        }
        if word == Verb::Stray.word() {
            return Some(Verb::Stray);
        }
        if word == Verb::Restart.word() {
            return Some(Verb::Restart);
        }
        if word == Verb::UnknownKeep.word() {
            return Some(Verb::UnknownKeep);
        }
        None
    }
}

/// What a `begin` line begins.
#[derive(Clone, Copy, Debug, PartialEq, Eq)]
pub enum OperationKind {
    Put,
    Get,
}

impl OperationKind {
    fn word(self) -> &'static [u8]
        ensures { result.now ≡ kind_word self }
    {
        match self {
            OperationKind::Put => b"put",
            OperationKind::Get => b"get",
        }
    }

    /// The kind that is this word, if one is.
    pub(crate) fn from_word(word: &[u8]) -> Option<Self>
        ensures { result ≡ kind_in word.now }
    {
        if word == OperationKind::Put.word() {
            return Some(OperationKind::Put);
        }
        if word == OperationKind::Get.word() {
            return Some(OperationKind::Get);
        }
        None
    }
}

/// The ruleset that has this name, if one has.
pub(crate) fn ruleset_named(word: &[u8]) -> Option<Ruleset>
    ensures { result ≡ ruleset_in word.now }
{
    if word == Ruleset::Lynx.name().as_bytes() {
        return Some(Ruleset::Lynx);
    }
    if word == Ruleset::Ms.name().as_bytes() {
        return Some(Ruleset::Ms);
    }
    None
}

fn found() -> &'static [u8]
    ensures { result.now ≡ found_word true }
{
    b"found"
}

fn lost() -> &'static [u8]
    ensures { result.now ≡ found_word false }
{
    b"lost"
}

/// Whether this word says that the next start finds a collection, if it says either.
pub(crate) fn is_found(word: &[u8]) -> Option<bool>
    ensures { result ≡ found_in word.now }
{
    if word == found() {
        return Some(true);
    }
    if word == lost() {
        return Some(false);
    }
    None
}
