//! The lines of an outcome, each appended to a text.

ghost use Rattle.std.specs.Prelude.{◌≡◌, ◌++◌, string_bytes, OnOk, IfOk};
ghost use Rattle.std.specs.List.{flat_map};
ghost use Rattle.archive_world.specs.View.{asked_as};
ghost use Rattle.schedule_text.specs.Answer.{bytes_text, file_line, text_line, asked_text, taken_line, recovered_line, sent_line, got_line, opened_line, datagram_line, outcome_text, fault_text};

use archive_world::{Asked, Datagram, GotFile, Opening, Outcome, TakenFile, WorldFault};
use std::alloc::{AllocError, Global};
use tftp_packet::Endpoint;

// Adds bytes as pairs of hexadecimal digits, or `-` for none, and ends the line.
fn push_bytes(alloc: Global, text: &mut String, bytes: &[u8]) -> Result<(), AllocError>
    ensures { OnOk result (string_bytes text.new ≡ string_bytes text.old ++ bytes_text bytes.now) }
{
    if bytes.is_empty() {
        return text.push_str("-\n");
    }
    let digits = hex::encode(alloc, bytes)?;
    text.push_str(digits.as_str())?;
    text.push_str("\n")
}

fn push_text(alloc: Global, text: &mut String, name: &str, bytes: &[u8]) -> Result<(), AllocError>
    ensures { OnOk result (string_bytes text.new ≡ string_bytes text.old ++ text_line name.now bytes.now) }
{
    write!(text, "{name} ")?;
    push_bytes(alloc, text, bytes)
}

fn push_file(
    alloc: Global,
    text: &mut String,
    name: &str,
    at: Endpoint,
    bytes: &[u8],
) -> Result<(), AllocError>
    ensures { OnOk result (string_bytes text.new ≡ string_bytes text.old ++ file_line name.now at bytes.now) }
{
    write!(text, "{name} {} {} ", at.host, at.port)?;
    push_bytes(alloc, text, bytes)
}

fn push_sent(text: &mut String, client: Endpoint) -> Result<(), AllocError>
    ensures { OnOk result (string_bytes text.new ≡ string_bytes text.old ++ sent_line client) }
{
    writeln!(text, "sent {} {}", client.host, client.port)
}

fn push_asked(text: &mut String, asked: Asked, taken: usize) -> Result<(), AllocError>
    ensures { OnOk result (string_bytes text.new ≡ string_bytes text.old ++ asked_text (asked_as asked) taken) }
{
    match asked {
        Asked::Write => writeln!(text, " write {taken}"),
        Asked::Read(ruleset) => writeln!(text, " {ruleset} {taken}"),
    }
}

fn push_opening(text: &mut String, one: &Opening) -> Result<(), AllocError>
    ensures { OnOk result (string_bytes text.new ≡ string_bytes text.old ++ opened_line one.now) }
{
    write!(
        text,
        "opened {} {} {}",
        one.peer.host, one.peer.port, one.port
    )?;
    push_asked(text, one.asked, one.taken)
}

fn push_datagram(alloc: Global, text: &mut String, one: &Datagram) -> Result<(), AllocError>
    ensures { OnOk result (string_bytes text.new ≡ string_bytes text.old ++ datagram_line one.now) }
{
    write!(text, "datagram {} {} ", one.from.host, one.from.port)?;
    write!(text, "{} {} ", one.to.host, one.to.port)?;
    push_bytes(alloc, text, one.bytes.as_slice())
}

fn push_all_taken(alloc: Global, text: &mut String, all: &[TakenFile]) -> Result<(), AllocError>
    ensures { OnOk result (string_bytes text.new ≡ string_bytes text.old ++ flat_map taken_line all.now) }
{
    for one in all {
        push_file(alloc, text, "taken", one.peer, one.file.as_slice())?;
    }
    Ok(())
}

fn push_all_recovered(alloc: Global, text: &mut String, all: &[TakenFile]) -> Result<(), AllocError>
    ensures { OnOk result (string_bytes text.new ≡ string_bytes text.old ++ flat_map recovered_line all.now) }
{
    for one in all {
        push_file(alloc, text, "recovered", one.peer, one.file.as_slice())?;
    }
    Ok(())
}

fn push_all_sent(text: &mut String, all: &[Endpoint]) -> Result<(), AllocError>
    ensures { OnOk result (string_bytes text.new ≡ string_bytes text.old ++ flat_map sent_line all.now) }
{
    for one in all {
        push_sent(text, *one)?;
    }
    Ok(())
}

fn push_all_got(alloc: Global, text: &mut String, all: &[GotFile]) -> Result<(), AllocError>
    ensures { OnOk result (string_bytes text.new ≡ string_bytes text.old ++ flat_map got_line all.now) }
{
    for one in all {
        push_file(alloc, text, "got", one.client, one.file.as_slice())?;
    }
    Ok(())
}

fn push_all_opened(text: &mut String, all: &[Opening]) -> Result<(), AllocError>
    ensures { OnOk result (string_bytes text.new ≡ string_bytes text.old ++ flat_map opened_line all.now) }
{
    for one in all {
        push_opening(text, one)?;
    }
    Ok(())
}

fn push_datagrams(alloc: Global, text: &mut String, all: &[Datagram]) -> Result<(), AllocError>
    ensures { OnOk result (string_bytes text.new ≡ string_bytes text.old ++ flat_map datagram_line all.now) }
{
    for one in all {
        push_datagram(alloc, text, one)?;
    }
    Ok(())
}

/// The lines of an outcome.
///
/// # Errors
///
/// Out of memory.
pub(crate) fn outcome_lines(alloc: Global, outcome: &Outcome) -> Result<String, AllocError>
    ensures { IfOk result (λ text. string_bytes text ≡ outcome_text outcome.now) }
{
    let mut text = String::new(alloc);
    push_all_taken(alloc, &mut text, &outcome.taken)?;
    push_all_recovered(alloc, &mut text, &outcome.recovered)?;
    push_all_sent(&mut text, &outcome.sent)?;
    push_all_got(alloc, &mut text, &outcome.got)?;
    push_all_opened(&mut text, &outcome.opened)?;
    push_text(alloc, &mut text, "lynx", outcome.lynx.as_slice())?;
    push_text(alloc, &mut text, "ms", outcome.ms.as_slice())?;
    push_datagrams(alloc, &mut text, &outcome.datagrams)?;
    Ok(text)
}

/// The line of a fault.
///
/// # Errors
///
/// Out of memory.
pub(crate) fn fault_line(alloc: Global, fault: WorldFault) -> Result<String, AllocError>
    ensures { IfOk result (λ text. string_bytes text ≡ fault_text fault) }
{
    let mut text = String::new(alloc);
    match fault {
        WorldFault::BadEvent(index) => writeln!(text, "bad event {index}")?,
        WorldFault::PortReused(index) => writeln!(text, "port reused {index}")?,
        WorldFault::NotKept(index) => writeln!(text, "not kept {index}")?,
        WorldFault::NotLoaded(index) => writeln!(text, "not loaded {index}")?,
        WorldFault::Memory => writeln!(text, "out of memory")?,
    }
    Ok(text)
}
