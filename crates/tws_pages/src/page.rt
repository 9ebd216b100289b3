//! The solutions of files as a page of HTML.

ghost use Rattle.std.specs.Prelude.{◌≡◌, ◌++◌, string_bytes, option_copied, OnOk, OnErr};
ghost use Rattle.std.specs.List.{flat_map};
ghost use Rattle.std.specs.Io.KnownBytes.{Appends};
ghost use Rattle.byte_output.specs.Output.{Sends, AppendsPrefix};
ghost use Rattle.tws_file.specs.Record.{records_of};
ghost use Rattle.tws_pages.specs.Page.{page_end, section_with, section_of, page_with, page_of};

use crate::level_set::first_name;
use crate::markup::PAGE_END;
use crate::page_head::{push_page_head, push_section_head, push_table_end};
use crate::page_row::PageRows;
use crate::totals::Totals;
use byte_output::{OutFault, put};
use std::alloc::{AllocError, Allocator};
use std::io::Write;
use tws_file::{Record, Ruleset, TwsFile};
use tws_tables::send_rows;

/// Appends what a page ends with.
#[tactic(auto, unfolding(crate::specs::Page::page_end))]
pub(crate) fn push_page_end<A: Allocator>(text: &mut String<A>) -> Result<(), AllocError>
    ensures { OnOk result (string_bytes text.new ≡ string_bytes text.old ++ page_end) }
{
    text.push_str(PAGE_END)
}

// Gathers the section of a file with these parts.
fn send_parts<A: Allocator, B: Allocator, W: Write>(
    text: &mut String<A>,
    ruleset: Ruleset,
    records: &[Record<B>],
    out: &mut W,
) -> Result<(), OutFault>
    ensures ok { OnOk result (Sends (W.contents out.old) (W.contents out.new) (string_bytes text.old ++ section_with «ruleset» (records_of records.now)) (string_bytes text.new)) }
    ensures err { OnErr result (AppendsPrefix (W.contents out.old) (W.contents out.new) (string_bytes text.old ++ section_with «ruleset» (records_of records.now))) }
{
    push_section_head(text, ruleset, first_name(records), Totals::of(records))?;
    send_rows(text, &PageRows, records, out)?;
    push_table_end(text)?;
    Ok(())
}

// Gathers the section of a file, and writes the gathered text out as it grows large.
fn send_section<A: Allocator, B: Allocator, W: Write>(
    text: &mut String<A>,
    file: &TwsFile<B>,
    out: &mut W,
) -> Result<(), OutFault>
    ensures ok { OnOk result (Sends (W.contents out.old) (W.contents out.new) (string_bytes text.old ++ section_of file.now) (string_bytes text.new)) }
    ensures err { OnErr result (AppendsPrefix (W.contents out.old) (W.contents out.new) (string_bytes text.old ++ section_of file.now)) }
{
    let records = file.records.as_slice();
    send_parts(text, file.ruleset, records, out)
}

// Gathers the sections of files, and writes the gathered text out as it grows large.
fn send_sections<A: Allocator, B: Allocator, W: Write>(
    text: &mut String<A>,
    files: &[TwsFile<B>],
    out: &mut W,
) -> Result<(), OutFault>
    ensures ok { OnOk result (Sends (W.contents out.old) (W.contents out.new) (string_bytes text.old ++ flat_map section_of files.now) (string_bytes text.new)) }
    ensures err { OnErr result (AppendsPrefix (W.contents out.old) (W.contents out.new) (string_bytes text.old ++ flat_map section_of files.now)) }
{
    for file in files {
        send_section(text, file, out)?;
    }
    Ok(())
}

/// Writes a page of HTML with a table of the solutions of each file, in the files' order. A table has a row for each
/// solution, in the order of its file; the ruleset, the name of the level set, if the file has it, the number of solutions
/// and their seconds in all stand above it.
///
/// The title is that of the page, and its first heading; without one it is `Tile World solutions`. The page is complete in
/// itself, and each title, name and password in it is escaped. It is written in large pieces.
///
/// # Errors
///
/// `Io` if the writer fails, `Memory` if an allocation was refused. A proper prefix of the page was written.
pub fn write_page_with<A: Allocator, B: Allocator, W: Write>(
    alloc: A,
    title: Option<&str>,
    files: &[TwsFile<B>],
    out: &mut W,
) -> Result<(), OutFault>
    ensures ok { OnOk result (Appends (W.contents out.old) (W.contents out.new) (page_with (option_copied title.entry) files.now)) }
    ensures err { OnErr result (AppendsPrefix (W.contents out.old) (W.contents out.new) (page_with (option_copied title.entry) files.now)) }
{
    let mut text = String::new(alloc);
    push_page_head(&mut text, title)?;
    send_sections(&mut text, files, out)?;
    push_page_end(&mut text)?;
    put(out, text.as_bytes())
}

/// Writes the page of `write_page_with` without a title.
///
/// # Errors
///
/// Those of `write_page_with`.
pub fn write_page<A: Allocator, B: Allocator, W: Write>(
    alloc: A,
    files: &[TwsFile<B>],
    out: &mut W,
) -> Result<(), OutFault>
    ensures ok { OnOk result (Appends (W.contents out.old) (W.contents out.new) (page_of files.now)) }
    ensures err { OnErr result (AppendsPrefix (W.contents out.old) (W.contents out.new) (page_of files.now)) }
{
    write_page_with(alloc, None, files, out)
}
