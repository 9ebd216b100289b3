//! The folder that a server keeps its collections in: its keeper, and reports of why nothing can be kept or loaded there.

ghost use Rattle.std.specs.Prelude.{◌≡◌, IfSome};

use archive_host::{DirKeeper, OpenFault};
use archive_keepers::ServedKeeper;
use command_line::{FAILED, print_about, report_cause};
use std::alloc::Global;
use std::fs::File;
use std::io;
use std::io::Write;
use std::path::Path;
use std::rt::Files;
use std::time::Clock;
use tws_file::{InWords, Ruleset};
use tws_reader::read_file;

// Reports that a folder's collections could not be loaded.
fn not_loaded<E: Write>(name: &str, errors: &mut E) {
    let _ = writeln!(errors, "tws: {name}: not loaded");
}

// Reports that a folder cannot be opened, with the cause on a second line.
fn not_opened<E: Write>(fault: OpenFault, name: &str, errors: &mut E) {
    not_loaded(name, errors);
    if let OpenFault::NoFolder(cause) = fault {
        let _status = report_cause(FAILED, name, &cause, errors);
    } else {
        let _ = writeln!(errors, "tws: {name}: {fault}");
    }
}

// Reports that nothing can be kept in a folder, with the system's cause on a second line.
fn not_writable<E: Write>(cause: Option<io::Error>, name: &str, errors: &mut E) {
    not_loaded(name, errors);
    let _ = match cause {
        Some(cause) => writeln!(errors, "tws: {name}: folder not writable: {cause}"),
        None => writeln!(errors, "tws: {name}: folder not writable"),
    };
}

/// A keeper over the folder of this name, without the drafts that were left there. `None` if nothing can be kept there,
/// which is reported.
pub(crate) fn keeper_of<P: Files<File = File> + Clock + AllocGlobal + Copy, E: Write>(
    rt: P,
    name: &str,
    errors: &mut E,
) -> Option<DirKeeper<P>>
    ensures silent { IfSome result (λ _. errors.new ≡ errors.old) }
{
    let mut keeper = match DirKeeper::open(rt, name) {
        Ok(keeper) => keeper,
        Err(fault) => {
            not_opened(fault, name, errors);
            return None;
        }
    };
    if keeper.clear_drafts().is_err() {
        not_writable(keeper.last_error(), name, errors);
        return None;
    }
    Some(keeper)
}

// Prints why these bytes are not a collection of this ruleset, if they are not.
fn report_text<E: Write>(
    alloc: Global,
    bytes: &[u8],
    ruleset: Ruleset,
    path: &str,
    errors: &mut E,
) {
    match read_file(alloc, bytes) {
        Ok(file) => {
            if file.ruleset != ruleset {
                let words = format_args!("the file is of the ruleset {}", file.ruleset);
                print_about(path, words, errors);
            }
        }
        Err(fault) => {
            let _ = writeln!(errors, "tws: {path}: {}", InWords(fault));
        }
    }
}

// Prints why the collection of this ruleset, which is at this path, cannot be loaded, if it cannot.
fn report_file_at<K: ServedKeeper, E: Write>(
    alloc: Global,
    keeper: &mut K,
    ruleset: Ruleset,
    path: &str,
    errors: &mut E,
) {
    match keeper.load(alloc, ruleset) {
        Ok(Some(text)) => report_text(alloc, text.as_slice(), ruleset, path, errors),
        Ok(None) => {}
        Err(_) => {
            if let Some(cause) = keeper.last_error() {
                let _status = report_cause(FAILED, path, &cause, errors);
            }
        }
    }
}

/// Reports that the collections of the folder of this name could not be loaded by this keeper, with the fault of each file
/// that has one in a further line. Returns the status.
pub(crate) fn report_unloaded<K: ServedKeeper, E: Write>(
    alloc: Global,
    keeper: &mut K,
    name: &str,
    errors: &mut E,
) -> u8
    ensures { result ≡ 2 }
{
    not_loaded(name, errors);
    if let Ok(path) = Path::new(name).join(alloc, "lynx.tws") {
        report_file_at(alloc, keeper, Ruleset::Lynx, path.as_str(), errors);
    }
    if let Ok(path) = Path::new(name).join(alloc, "ms.tws") {
        report_file_at(alloc, keeper, Ruleset::Ms, path.as_str(), errors);
    }
    FAILED
}
