//! The solutions of files as a page of HTML by a list of levels.

ghost use Rattle.std.specs.Prelude.{◌≡◌, ◌++◌, string_bytes, option_copied, OnOk, OnErr};
ghost use Rattle.std.specs.List.{flat_map};
ghost use Rattle.std.specs.Io.KnownBytes.{Appends};
ghost use Rattle.byte_output.specs.Output.{AppendsPrefix};
ghost use Rattle.tws_pages.specs.LevelTable.{level_section};
ghost use Rattle.tws_pages.specs.LevelPage.{level_page, page_by};

use crate::level::Level;
use crate::level_section::push_level_section;
use crate::page::{push_page_end, write_page_with};
use crate::page_head::push_page_head;
use crate::side_by_side::push_side_by_side;
use byte_output::{OutFault, put};
use std::alloc::{AllocError, Allocator};
use std::io::Write;
use tws_file::TwsFile;

fn push_sections<A: Allocator, B: Allocator>(
    text: &mut String<A>,
    levels: &[Level],
    files: &[TwsFile<B>],
) -> Result<(), AllocError>
    ensures { OnOk result (string_bytes text.new ≡ string_bytes text.old ++ flat_map (level_section levels.now) files.now) }
{
    for file in files {
        push_level_section(text, levels, file)?;
    }
    Ok(())
}

fn push_page<A: Allocator, B: Allocator>(
    text: &mut String<A>,
    title: Option<&str>,
    levels: &[Level],
    files: &[TwsFile<B>],
) -> Result<(), AllocError>
    ensures { OnOk result (string_bytes text.new ≡ string_bytes text.old ++ level_page (option_copied title.entry) levels.now files.now) }
{
    push_page_head(text, title)?;
    push_side_by_side(text, levels, files)?;
    push_sections(text, levels, files)?;
    push_page_end(text)
}

// Makes the page in memory, and then writes it.
fn write_level_page<A: Allocator, B: Allocator, W: Write>(
    alloc: A,
    title: Option<&str>,
    levels: &[Level],
    files: &[TwsFile<B>],
    out: &mut W,
) -> Result<(), OutFault>
    ensures ok { OnOk result (Appends (W.contents out.old) (W.contents out.new) (level_page (option_copied title.entry) levels.now files.now)) }
    ensures err { OnErr result (AppendsPrefix (W.contents out.old) (W.contents out.new) (level_page (option_copied title.entry) levels.now files.now)) }
{
    let mut text = String::new(alloc);
    push_page(&mut text, title, levels, files)?;
    put(out, text.as_bytes())
}

/// Writes a page of HTML of files, by a list of the levels of their set if there is one; without it, that of
/// `write_page_with`. By a list, the table of a file has its solutions of each level, in the list's order, with the level's
/// name and the time left, a row for each level that the file has not solved, and then its other solutions; how many levels
/// are solved stands above it. If there are files of both rulesets, a table of the best times left under each comes first.
///
/// # Errors
///
/// `Io` if the writer fails, `Memory` if an allocation was refused. A proper prefix of the page was written.
pub fn write_page_by<A: Allocator, B: Allocator, W: Write>(
    alloc: A,
    title: Option<&str>,
    levels: Option<&[Level]>,
    files: &[TwsFile<B>],
    out: &mut W,
) -> Result<(), OutFault>
    ensures ok { OnOk result (Appends (W.contents out.old) (W.contents out.new) (page_by (option_copied title.entry) (option_copied levels.entry) files.now)) }
    ensures err { OnErr result (AppendsPrefix (W.contents out.old) (W.contents out.new) (page_by (option_copied title.entry) (option_copied levels.entry) files.now)) }
{
    match levels {
        Some(levels) => write_level_page(alloc, title, levels, files, out),
        None => write_page_with(alloc, title, files, out),
    }
}
