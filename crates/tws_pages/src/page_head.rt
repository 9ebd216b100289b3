//! What a page and its sections begin with, appended to a text.

ghost use Rattle.std.specs.Prelude.{◌≡◌, ◌++◌, string_bytes, option_copied, OnOk};
ghost use Rattle.std.specs.Str.{chars};
ghost use Rattle.tws_pages.specs.Escaping.{escaped};
ghost use Rattle.tws_pages.specs.SetName.{shown_name};
ghost use Rattle.tws_pages.specs.Page.{page_start, page_style, page_body, page_head, table_head, table_end, title_of, title_shown, named, heading, counts, section_head};
ghost use Rattle.tws_pages.specs.Steps.{opening, closing};

use crate::escaped_char::EscapedChar;
use crate::level_set::{cut, shown_byte};
use crate::markup::{PAGE_BODY, PAGE_START, PAGE_STYLE, TABLE_END, TABLE_HEAD};
use crate::totals::Totals;
use std::alloc::{AllocError, Allocator};
use tws_file::Ruleset;
use tws_tables::Seconds;

#[tactic(auto, unfolding(crate::specs::Page::page_start))]
fn push_page_start<A: Allocator>(text: &mut String<A>) -> Result<(), AllocError>
    ensures { OnOk result (string_bytes text.new ≡ string_bytes text.old ++ page_start) }
{
    text.push_str(PAGE_START)
}

#[tactic(auto, unfolding(crate::specs::Page::page_style))]
fn push_page_style<A: Allocator>(text: &mut String<A>) -> Result<(), AllocError>
    ensures { OnOk result (string_bytes text.new ≡ string_bytes text.old ++ page_style) }
{
    text.push_str(PAGE_STYLE)
}

#[tactic(auto, unfolding(crate::specs::Page::page_body))]
fn push_page_body<A: Allocator>(text: &mut String<A>) -> Result<(), AllocError>
    ensures { OnOk result (string_bytes text.new ≡ string_bytes text.old ++ page_body) }
{
    text.push_str(PAGE_BODY)
}

#[tactic(auto, unfolding(crate::specs::Page::table_head))]
fn push_table_head<A: Allocator>(text: &mut String<A>) -> Result<(), AllocError>
    ensures { OnOk result (string_bytes text.new ≡ string_bytes text.old ++ table_head) }
{
    text.push_str(TABLE_HEAD)
}

// Appends characters as text in HTML.
fn push_escaped<A: Allocator>(text: &mut String<A>, plain: &str) -> Result<(), AllocError>
    ensures { OnOk result (string_bytes text.new ≡ string_bytes text.old ++ escaped (chars plain.now)) }
{
    for c in plain.chars() {
        write!(text, "{}", EscapedChar(c))?;
    }
    Ok(())
}

// Appends the name of a level set as it is shown, as text in HTML.
fn push_name<A: Allocator>(text: &mut String<A>, name: &[u8]) -> Result<(), AllocError>
    ensures { OnOk result (string_bytes text.new ≡ string_bytes text.old ++ escaped (shown_name name.now)) }
{
    let shown = cut(name);
    for &byte in shown {
        write!(text, "{}", EscapedChar(char::from(shown_byte(byte))))?;
    }
    Ok(())
}

// Appends the title, or that of a page without one.
fn push_title<A: Allocator>(text: &mut String<A>, title: Option<&str>) -> Result<(), AllocError>
    ensures { OnOk result (string_bytes text.new ≡ string_bytes text.old ++ title_shown (option_copied title.entry)) }
{
    match title {
        Some(title) => push_escaped(text, title),
        None => text.push_str("Tile World solutions"),
    }
}

/// Appends what a page with this title begins with.
pub(crate) fn push_page_head<A: Allocator>(
    text: &mut String<A>,
    title: Option<&str>,
) -> Result<(), AllocError>
    ensures { OnOk result (string_bytes text.new ≡ string_bytes text.old ++ page_head (option_copied title.entry)) }
{
    push_page_start(text)?;
    push_title(text, title)?;
    push_page_style(text)?;
    push_title(text, title)?;
    push_page_body(text)
}

// The name of a ruleset as a title.
fn title_of(ruleset: Ruleset) -> &'static str
    ensures { result.now ≡ title_of «ruleset» }
{
    match ruleset {
        Ruleset::Lynx => "Lynx",
        Ruleset::Ms => "MS",
    }
}

fn push_opening<A: Allocator>(text: &mut String<A>, ruleset: Ruleset) -> Result<(), AllocError>
    ensures { OnOk result (string_bytes text.new ≡ string_bytes text.old ++ opening «ruleset») }
{
    write!(text, "<section>\n<h2>{}", title_of(ruleset))
}

// Appends the name of a level set, after the ruleset.
fn push_named<A: Allocator>(text: &mut String<A>, name: Option<&[u8]>) -> Result<(), AllocError>
    ensures { OnOk result (string_bytes text.new ≡ string_bytes text.old ++ named (option_copied name.entry)) }
{
    match name {
        Some(name) => {
            text.push_str(": ")?;
            push_name(text, name)
        }
        None => Ok(()),
    }
}

fn push_closing<A: Allocator>(text: &mut String<A>) -> Result<(), AllocError>
    ensures { OnOk result (string_bytes text.new ≡ string_bytes text.old ++ closing) }
{
    text.push_str("</h2>\n")
}

/// Appends the heading of a section.
pub(crate) fn push_heading<A: Allocator>(
    text: &mut String<A>,
    ruleset: Ruleset,
    name: Option<&[u8]>,
) -> Result<(), AllocError>
    ensures { OnOk result (string_bytes text.new ≡ string_bytes text.old ++ heading «ruleset» (option_copied name.entry)) }
{
    push_opening(text, ruleset)?;
    push_named(text, name)?;
    push_closing(text)
}

/// Appends the counts of a section.
pub(crate) fn push_counts<A: Allocator>(
    text: &mut String<A>,
    totals: Totals,
) -> Result<(), AllocError>
    ensures { OnOk result (string_bytes text.new ≡ string_bytes text.old ++ counts totals.solutions totals.ticks) }
{
    let (solutions, seconds) = (totals.solutions, Seconds(totals.ticks));
    writeln!(
        text,
        "<p>Solutions: {solutions}, seconds in all: {seconds}</p>"
    )
}

/// Appends what a section ends with.
#[tactic(auto, unfolding(crate::specs::Page::table_end))]
pub(crate) fn push_table_end<A: Allocator>(text: &mut String<A>) -> Result<(), AllocError>
    ensures { OnOk result (string_bytes text.new ≡ string_bytes text.old ++ table_end) }
{
    text.push_str(TABLE_END)
}

/// Appends what the section of a file begins with.
#[tactic(auto, unfolding(crate::specs::Page::section_head))]
pub(crate) fn push_section_head<A: Allocator>(
    text: &mut String<A>,
    ruleset: Ruleset,
    name: Option<&[u8]>,
    totals: Totals,
) -> Result<(), AllocError>
    ensures { OnOk result (string_bytes text.new ≡ string_bytes text.old ++ section_head «ruleset» (option_copied name.entry) totals.solutions totals.ticks) }
{
    push_heading(text, ruleset, name)?;
    push_counts(text, totals)?;
    push_table_head(text)
}
