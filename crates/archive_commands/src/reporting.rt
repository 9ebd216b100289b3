//! Reports of why a command of the archive failed, and its exit status.

ghost use Rattle.std.specs.Prelude.{◌≡◌, [], ◌∷◌, map, string_bytes};
ghost use Rattle.command_line.specs.Faults.{status_of};
ghost use Rattle.command_line.specs.Printing.{Printed, Prints, report_lines};
ghost use Rattle.archive_arguments.specs.Address.{bad_address_lines};
ghost use Rattle.archive_commands.specs.Reports.{PrintsMore, ReportsReceived, ReportsTransfer, no_answer_line, no_host_reason, other_lines, reached_lines, refusal_lines, stopped_line, swapped_reason};

use crate::reached::Reached;
use crate::transfer_wire::TransferWire;
use archive_arguments::bad_address;
use archive_client::Cause;
use byte_output::Printable;
use command_line::{ToolFault, print_about, print_words, report, report_cause};
use std::io::Write;
use std::net::Ipv4Addr;
use std::slice;
use tftp_packet::Endpoint;
use tws_file::{FileFault, Ruleset};

/// Reports that an address is not one, nor the name of a host that can be looked up, and returns the status.
pub(crate) fn no_host<E: Write>(address: &str, errors: &mut E) -> u8
    ensures status { result ≡ 1 }
    ensures printed { Printed (bad_address_lines address.now no_host_reason) (E.contents errors.old) (E.contents errors.new) }
{
    bad_address(
        address,
        "neither an IPv4 address nor a host that can be found",
        errors,
    )
}

/// Reports that FILE seems to stand in the place of the address, and returns the status.
pub(crate) fn swapped<E: Write>(address: &str, errors: &mut E) -> u8
    ensures status { result ≡ 1 }
    ensures printed { Printed (bad_address_lines address.now swapped_reason) (E.contents errors.old) (E.contents errors.new) }
{
    bad_address(
        address,
        "neither an IPv4 address nor a host that can be found; ADDRESS comes before FILE",
        errors,
    )
}

// Prints what the server said, if that is known.
fn report_refusal<E: Write>(refusal: &[u8], errors: &mut E)
    ensures { Printed (refusal_lines refusal.now) (E.contents errors.old) (E.contents errors.new) }
{
    if !refusal.is_empty() {
        print_about("the server says", Printable::of(refusal), errors);
    }
}

// Prints that no answer came from this server, and what to check.
fn report_no_answer<E: Write>(server: Endpoint, errors: &mut E)
    ensures { Prints (no_answer_line server) (E.contents errors.old) (E.contents errors.new) }
{
    let host = Ipv4Addr::from(server.host.to_be_bytes());
    let port = server.port;
    print_words(
        format_args!(
            "no answer from {host} port {port}: does the archive run there, and may its answers come in?"
        ),
        errors,
    );
}

// Prints after which block the answers stopped, and what to do.
fn report_stopped<E: Write>(block: u16, blocks: Option<u64>, errors: &mut E)
    ensures { Prints (stopped_line block blocks) (E.contents errors.old) (E.contents errors.new) }
{
    match blocks {
        Some(blocks) => print_words(
            format_args!("answers stopped after block {block} of {blocks}: try again"),
            errors,
        ),
        None => print_words(
            format_args!("answers stopped after block {block}: try again"),
            errors,
        ),
    }
}

// Prints where a transfer that timed out has stopped, if that is known, and what to check.
fn report_reached<E: Write>(reached: Option<Reached>, errors: &mut E)
    ensures { Printed (reached_lines reached) (E.contents errors.old) (E.contents errors.new) }
{
    let Some(reached) = reached else {
        return;
    };
    if reached.answered {
        report_stopped(reached.block, reached.blocks, errors);
    } else {
        report_no_answer(reached.server, errors);
    }
}

/// Prints what the server said of a fault of a transfer over this wire, or the system, or where the transfer stopped.
pub(crate) fn report_more<N: TransferWire, E: Write>(fault: ToolFault, wire: &N, errors: &mut E)
    ensures { PrintsMore fault (N.refusal_of wire.now) (N.reached_of wire.now) (E.contents errors.old) (E.contents errors.new) }
{
    match fault {
        ToolFault::Read => {}
        ToolFault::Write => {}
        ToolFault::Unreadable { .. } => {}
        ToolFault::Memory => {}
        ToolFault::Socket => {
            if let Some(cause) = wire.last_error() {
                report_cause(fault.status(), "no port", &cause, errors);
            }
        }
        ToolFault::Transfer(Cause::Refused(_)) => report_refusal(wire.refusal(), errors),
        ToolFault::Transfer(Cause::TimedOut) => report_reached(wire.reached(), errors),
        ToolFault::Transfer(Cause::TooLong) => {}
        ToolFault::Transfer(Cause::Memory) => {}
    }
}

/// Reports why a transfer over this wire failed, with what the server or the system said in a second line, and returns the
/// status. `names` are those of `report`.
pub(crate) fn report_transfer<N: TransferWire, E: Write>(
    fault: ToolFault,
    wire: &N,
    names: &[String],
    errors: &mut E,
) -> u8
    ensures status { result ≡ status_of fault }
    ensures printed { ReportsTransfer (report_lines fault (map string_bytes names.now)) fault (N.refusal_of wire.now) (N.reached_of wire.now) (E.contents errors.old) (E.contents errors.new) }
{
    let status = report(fault, names, errors);
    report_more(fault, wire, errors);
    status
}

// Reports that the server at this address sent a file of the other ruleset, and returns the status.
fn report_other<E: Write>(fault: ToolFault, code: u8, address: &str, errors: &mut E) -> u8
    ensures status { result ≡ status_of fault }
    ensures printed { Printed (other_lines address.now code) (E.contents errors.old) (E.contents errors.new) }
{
    print_about(
        address,
        format_args!("unreadable: BadRuleset({code})"),
        errors,
    );
    print_about(
        address,
        format_args!("byte 4 is {code}, the code of the other ruleset"),
        errors,
    );
    fault.status()
}

/// Reports why no collection was fetched over this wire from the server at this address, and returns the status. What was
/// sent is at fault if it is `Unreadable`.
pub(crate) fn report_received<N: TransferWire, E: Write>(
    fault: ToolFault,
    address: &String,
    wire: &N,
    errors: &mut E,
) -> u8
    ensures status { result ≡ status_of fault }
    ensures printed { ReportsReceived fault (string_bytes address.now) (N.refusal_of wire.now) (N.reached_of wire.now) (E.contents errors.old) (E.contents errors.new) }
{
    if let ToolFault::Unreadable {
        fault: FileFault::BadRuleset(code),
        ..
    } = fault
    {
        if Ruleset::from_code(code).is_some() {
            return report_other(fault, code, address.as_str(), errors);
        }
    }
    report_transfer(fault, wire, slice::from_ref(address), errors)
}
