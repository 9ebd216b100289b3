//! What is said of several files: which is of another ruleset, and which names another level set than the first that names
//! one; of those that were found in folders only how many.

ghost use Rattle.std.specs.Prelude.{◌≡◌, ◌+◌, ◌^◌, ◌<◌, ◌≤◌, [], None, IfOk, OnOk, nat_eq, nat_lt, option_copied, string_bytes};
ghost use Rattle.std.specs.Str.{bytes_eq};
ghost use Rattle.tws_pages.specs.SetName.{set_name_of};
ghost use Rattle.file_commands.specs.Notes.{counted_after, first_naming, name_at, noted_after, one_unless, other_rules, other_sets, other_sets_note, ruleset_line, ruleset_note, rulesets_line, rulesets_note, said_after, said_in_all, set_in, set_line, set_note, sets_line, sets_note, source_text, unless};
ghost use Rattle.file_commands.specs.Steps.{said_in};

use command_line::Source;
use std::alloc::{AllocError, Global};
use std::marker::Model;
use tws_file::{Ruleset, TwsFile};
use tws_pages::{ShownName, set_name};

// An input as lines about it name it.
fn source_text(source: &Source) -> &str
    ensures { result.now ≡ source_text source.now }
{
    match source {
        Source::Standard => "standard input",
        Source::Named(name) => name.as_str(),
    }
}

// The same of the input with this index.
pub(crate) fn name_at(sources: &[Source], index: usize) -> &str
    ensures { result.now ≡ name_at sources.now index }
{
    if index >= sources.len() {
        return "standard input";
    }
    source_text(&sources[index])
}

// The line for the file of this name, which is of this ruleset and not of the one that was asked for.
fn ruleset_line(alloc: Global, name: &str, ruleset: Ruleset) -> Result<String, AllocError>
    ensures { IfOk result (λ text. string_bytes text ≡ ruleset_line name.now «ruleset») }
{
    format!(in alloc; "tws: {name}: the file is of the ruleset {ruleset}\n")
}

// What is said of the ruleset of a file of this name.
fn ruleset_note(
    alloc: Global,
    rules: Ruleset,
    its: Ruleset,
    name: &str,
) -> Result<String, AllocError>
    ensures { IfOk result (λ text. string_bytes text ≡ ruleset_note rules its name.now) }
{
    match (rules, its) {
        (Ruleset::Lynx, Ruleset::Lynx) => Ok(String::new(alloc)),
        (Ruleset::Lynx, Ruleset::Ms) => ruleset_line(alloc, name, Ruleset::Ms),
        (Ruleset::Ms, Ruleset::Lynx) => ruleset_line(alloc, name, Ruleset::Lynx),
        (Ruleset::Ms, Ruleset::Ms) => Ok(String::new(alloc)),
    }
}

// The level set that a file names, if it is of this ruleset.
fn set_in(rules: Ruleset, file: &TwsFile) -> Option<&[u8]>
    ensures { option_copied result ≡ set_in rules file.now.«ruleset» (set_name_of file.now) }
{
    match (rules, file.ruleset) {
        (Ruleset::Lynx, Ruleset::Lynx) => set_name(file),
        (Ruleset::Lynx, Ruleset::Ms) => None,
        (Ruleset::Ms, Ruleset::Lynx) => None,
        (Ruleset::Ms, Ruleset::Ms) => set_name(file),
    }
}

fn is_same(one: &[u8], other: &[u8]) -> bool
    ensures { result ≡ bytes_eq one.now other.now }
{
    one == other
}

// The level set that a file names, by the name of the file.
#[derive(Drop)]
pub(crate) struct NamedSet {
    by_file: String,
    named: Vec<u8>,
}

impl Model for NamedSet {
    ghost use Rattle.std.specs.Prelude.{string_bytes};
    ghost use Rattle.file_commands.specs.Notes.{SetNaming};

    ghost Value = { SetNaming };

    ghost view = { λ s. record { by_file = string_bytes s.by_file; named = s.named.items } };
}

impl NamedSet {
    fn of(alloc: Global, name: &str, set: &[u8]) -> Result<Self, AllocError>
        ensures { IfOk result (λ made. made ≡ record { by_file = name.now; named = set.now }) }
    {
        let by_file = String::from_str(alloc, name)?;
        let named = Vec::from_slice(alloc, set)?;
        Ok(NamedSet { by_file, named })
    }

    // The line for the file of this name, which names another level set.
    fn line(&self, alloc: Global, name: &str, other: &[u8]) -> Result<String, AllocError>
        ensures { IfOk result (λ text. string_bytes text ≡ set_line self.now name.now other.now) }
    {
        let first = self.by_file.as_str();
        let other = ShownName(other);
        let named = ShownName(self.named.as_slice());
        format!(in alloc;
            "tws: {name}: the file is of the level set {other}, and {first} of {named}\n"
        )
    }

    // What is said of the level set that the file of this name names.
    fn note(&self, alloc: Global, name: &str, other: &[u8]) -> Result<String, AllocError>
        ensures { IfOk result (λ text. string_bytes text ≡ unless (bytes_eq self.now.named other.now) (set_line self.now name.now other.now)) }
    {
        if is_same(self.named.as_slice(), other) {
            Ok(String::new(alloc))
        } else {
            self.line(alloc, name, other)
        }
    }

    // Whether this is another level set, as a number.
    fn differs(&self, other: &[u8]) -> usize
        ensures number { result ≡ one_unless (bytes_eq self.now.named other.now) }
        ensures few { result ≤ 1 }
    {
        if is_same(self.named.as_slice(), other) {
            0
        } else {
            1
        }
    }

    // The line for so many files in folders, which name another level set.
    fn count_line(&self, alloc: Global, count: usize) -> Result<String, AllocError>
        ensures { IfOk result (λ text. string_bytes text ≡ unless (nat_eq count 0) (sets_line self.now count)) }
    {
        if count == 0 {
            return Ok(String::new(alloc));
        }
        let first = self.by_file.as_str();
        let named = ShownName(self.named.as_slice());
        format!(in alloc;
            "tws: files of another level set than {named} of {first} in folders: {count}\n"
        )
    }
}

// What is said of the level set that the file of this name names, if it names one.
fn set_note(
    alloc: Global,
    first: &Option<NamedSet>,
    name: &str,
    other: Option<&[u8]>,
) -> Result<String, AllocError>
    ensures { IfOk result (λ text. string_bytes text ≡ set_note first.now name.now (option_copied other.entry)) }
{
    match (first, other) {
        (None, None) => Ok(String::new(alloc)),
        (None, Some(_)) => Ok(String::new(alloc)),
        (Some(_), None) => Ok(String::new(alloc)),
        (Some(first), Some(other)) => first.note(alloc, name, other),
    }
}

// The first file that names a level set, once this one came.
fn first_naming(
    alloc: Global,
    first: Option<NamedSet>,
    name: &str,
    other: Option<&[u8]>,
) -> Result<Option<NamedSet>, AllocError>
    ensures { IfOk result (λ after. after ≡ first_naming first name.now (option_copied other.entry)) }
{
    if let Some(first) = first {
        return Ok(Some(first));
    }
    match other {
        None => Ok(None),
        Some(set) => Ok(Some(NamedSet::of(alloc, name, set)?)),
    }
}

// Whether a file is of the other ruleset, as a number.
fn other_rules(rules: Ruleset, its: Ruleset) -> usize
    ensures number { result ≡ other_rules rules its }
    ensures few { result ≤ 1 }
{
    match (rules, its) {
        (Ruleset::Lynx, Ruleset::Lynx) => 0,
        (Ruleset::Lynx, Ruleset::Ms) => 1,
        (Ruleset::Ms, Ruleset::Lynx) => 1,
        (Ruleset::Ms, Ruleset::Ms) => 0,
    }
}

// Whether a file names another level set, as a number.
fn other_sets(first: &Option<NamedSet>, other: Option<&[u8]>) -> usize
    ensures number { result ≡ other_sets first.now (option_copied other.entry) }
    ensures few { result ≤ 1 }
{
    match (first, other) {
        (None, None) => 0,
        (None, Some(_)) => 0,
        (Some(_), None) => 0,
        (Some(first), Some(other)) => first.differs(other),
    }
}

// The line for so many files in folders, which are of this ruleset and not of the one that was asked for.
fn rulesets_line(alloc: Global, ruleset: Ruleset, count: usize) -> Result<String, AllocError>
    ensures { IfOk result (λ text. string_bytes text ≡ unless (nat_eq count 0) (rulesets_line «ruleset» count)) }
{
    if count == 0 {
        return Ok(String::new(alloc));
    }
    format!(in alloc; "tws: files of the ruleset {ruleset} in folders: {count}\n")
}

// What is said of so many files in folders that are of the other ruleset.
fn rulesets_note(alloc: Global, rules: Ruleset, count: usize) -> Result<String, AllocError>
    ensures { IfOk result (λ text. string_bytes text ≡ rulesets_note rules count) }
{
    match rules {
        Ruleset::Lynx => rulesets_line(alloc, Ruleset::Ms, count),
        Ruleset::Ms => rulesets_line(alloc, Ruleset::Lynx, count),
    }
}

// What is said of so many files in folders that name another level set.
fn other_sets_note(
    alloc: Global,
    first: &Option<NamedSet>,
    count: usize,
) -> Result<String, AllocError>
    ensures { IfOk result (λ text. string_bytes text ≡ other_sets_note first.now count) }
{
    match first {
        None => Ok(String::new(alloc)),
        Some(first) => first.count_line(alloc, count),
    }
}

// What was said of files, the first of them that names a level set, and how many in folders are of the other ruleset or name
// another level set.
#[derive(Drop)]
pub(crate) struct Notes {
    pub(crate) text: String,
    first: Option<NamedSet>,
    rules_count: usize,
    sets_count: usize,
}

impl Notes {
    // Nothing was said.
    pub(crate) fn new(alloc: Global) -> Self
        ensures text { string_bytes result.text ≡ [] }
        ensures first { result.first ≡ None }
        ensures rules_count { result.rules_count ≡ 0 }
        ensures sets_count { result.sets_count ≡ 0 }
    {
        Notes {
            text: String::new(alloc),
            first: None,
            rules_count: 0,
            sets_count: 0,
        }
    }

    // One more file, of this name, which was named.
    fn take(
        &mut self,
        alloc: Global,
        rules: Ruleset,
        name: &str,
        file: &TwsFile,
    ) -> Result<(), AllocError>
        ensures { OnOk result (said_in self.new ≡ said_after rules (said_in self.old) name.now file.now) }
    {
        let other = set_in(rules, file);
        let of_rules = ruleset_note(alloc, rules, file.ruleset, name)?;
        let of_set = set_note(alloc, &self.first, name, other)?;
        self.text.push_str(of_rules.as_str())?;
        self.text.push_str(of_set.as_str())?;
        let first = self.first.take();
        self.first = first_naming(alloc, first, name, other)?;
        Ok(())
    }

    // One more file, of this name, which was found in a folder.
    fn count(
        &mut self,
        alloc: Global,
        rules: Ruleset,
        name: &str,
        file: &TwsFile,
    ) -> Result<(), AllocError>
        requires rules { self.old.rules_count + 1 < 2 ^ 64 }
        requires sets { self.old.sets_count + 1 < 2 ^ 64 }
        ensures { OnOk result (said_in self.new ≡ counted_after rules (said_in self.old) name.now file.now) }
    {
        let other = set_in(rules, file);
        self.rules_count += other_rules(rules, file.ruleset);
        self.sets_count += other_sets(&self.first, other);
        let first = self.first.take();
        self.first = first_naming(alloc, first, name, other)?;
        Ok(())
    }

    // One more file, from the input with this index, of which the first `named` were named.
    pub(crate) fn add(
        &mut self,
        alloc: Global,
        rules: Ruleset,
        sources: &[Source],
        named: usize,
        index: usize,
        file: &TwsFile,
    ) -> Result<(), AllocError>
        requires rules { self.old.rules_count + 1 < 2 ^ 64 }
        requires sets { self.old.sets_count + 1 < 2 ^ 64 }
        ensures { OnOk result (said_in self.new ≡ noted_after (nat_lt index named) rules (said_in self.old) (name_at sources.now index) file.now) }
    {
        let name = name_at(sources, index);
        if index < named {
            self.take(alloc, rules, name, file)
        } else {
            self.count(alloc, rules, name, file)
        }
    }

    // Says in the end how many files in folders are of the other ruleset or name another level set.
    pub(crate) fn finish(&mut self, alloc: Global, rules: Ruleset) -> Result<(), AllocError>
        ensures { OnOk result (string_bytes self.new.text ≡ said_in_all rules (said_in self.old)) }
    {
        let of_rules = rulesets_note(alloc, rules, self.rules_count)?;
        let of_sets = other_sets_note(alloc, &self.first, self.sets_count)?;
        self.text.push_str(of_rules.as_str())?;
        self.text.push_str(of_sets.as_str())?;
        Ok(())
    }
}

// What is said of two files of one ruleset with these names.
pub(crate) fn sets_note(
    alloc: Global,
    mine_name: &str,
    mine: &TwsFile,
    theirs_name: &str,
    theirs: &TwsFile,
) -> Result<String, AllocError>
    ensures { IfOk result (λ text. string_bytes text ≡ sets_note mine_name.now mine.now theirs_name.now theirs.now) }
{
    let first = first_naming(alloc, None, mine_name, set_name(mine))?;
    set_note(alloc, &first, theirs_name, set_name(theirs))
}
