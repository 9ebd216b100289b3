//! Reports of why a sync failed, and its status.

ghost use Rattle.std.specs.Prelude.{◌≡◌, ◌≢◌, ◌≤◌, map, string_bytes};
ghost use Rattle.command_line.specs.Faults.{status_of};
ghost use Rattle.command_line.specs.Printing.{Printed};
ghost use Rattle.archive_commands.specs.Reports.{texts_lines};
ghost use Rattle.archive_commands.specs.Syncing.{fetch_status, news_status};

use crate::reporting::report_more;
use crate::run_fault::of_run;
use crate::sync::SyncArguments;
use crate::target::Target;
use crate::transfer_wire::TransferWire;
use archive_sync::{News, NewsFault, SyncFault};
use command_line::{DONE, ToolFault, UNREADABLE, USAGE, print_about, report};
use std::io::Write;
use std::slice;

// The archive to bring from, or the one to bring to.
fn target_of(arguments: &SyncArguments, is_from: bool) -> &Target {
    if is_from {
        &arguments.from
    } else {
        &arguments.to
    }
}

/// Reports a fault of an archive, the one to bring from or the other, with what the server or the system said in a second
/// line, and returns the status. Two archives at one address have their ports in the line.
pub(crate) fn report_at<N: TransferWire, E: Write>(
    fault: ToolFault,
    arguments: &SyncArguments,
    is_from: bool,
    wire: &N,
    errors: &mut E,
) -> u8
    ensures { result ≡ status_of fault }
{
    let Target { address, port } = target_of(arguments, is_from);
    let _ = if arguments.from.address.as_str() == arguments.to.address.as_str() {
        writeln!(errors, "tws: {address} port {port}: {fault}")
    } else {
        writeln!(errors, "tws: {address}: {fault}")
    };
    report_more(fault, wire, errors);
    fault.status()
}

/// Reports why two texts cannot be compared, and returns the status. The first one has the name in `first`, as in those of
/// `report`, and the second one is from the archive at this address.
pub(crate) fn report_texts<E: Write>(
    fault: NewsFault,
    first: &[String],
    address: &String,
    errors: &mut E,
) -> u8
    ensures status { result ≡ news_status fault }
    ensures printed { Printed (texts_lines (map string_bytes first.now) (string_bytes address.now) fault) (E.contents errors.old) (E.contents errors.new) }
{
    match fault {
        NewsFault::First(fault) => report(ToolFault::of_input(0, fault), first, errors),
        NewsFault::Second(fault) => report(
            ToolFault::of_input(0, fault),
            slice::from_ref(address),
            errors,
        ),
        NewsFault::Rulesets => {
            print_about(address.as_str(), "different rulesets", errors);
            UNREADABLE
        }
        NewsFault::Memory => report(ToolFault::Memory, first, errors),
    }
}

/// Reports why a ruleset was not fetched, if it was not, and returns the status.
pub(crate) fn report_news<N: TransferWire, E: Write>(
    news: &Result<News, SyncFault>,
    arguments: &SyncArguments,
    wire: &N,
    errors: &mut E,
) -> u8
    ensures status { result ≡ fetch_status news.now }
    ensures usage { result ≢ 1 }
    ensures few { result ≤ 4 }
    ensures silent { result ≡ 0 → errors.new ≡ errors.old }
{
    match news {
        Ok(_) => DONE,
        Err(SyncFault::From(fault)) => report_at(of_run(*fault), arguments, true, wire, errors),
        Err(SyncFault::To(fault)) => report_at(of_run(*fault), arguments, false, wire, errors),
        Err(SyncFault::News(fault)) => report_texts(
            *fault,
            slice::from_ref(&arguments.from.address),
            &arguments.to.address,
            errors,
        ),
    }
}

/// Reports that two archives have no level in common, and returns the status.
pub(crate) fn no_level_in_common<E: Write>(arguments: &SyncArguments, errors: &mut E) -> u8
    ensures { result ≡ 1 }
{
    let _ = writeln!(errors, "tws: no level in common");
    let _ = writeln!(
        errors,
        "tws: {} and {} may be of different level sets; --new brings them together",
        arguments.from.address, arguments.to.address
    );
    USAGE
}
