//! The program as a process: its arguments, its streams, and its exit status.

ghost use Rattle.std.specs.Prelude.{◌≤◌, IfOk};

use crate::program::run_words;
use crate::visible_errors::VisibleErrors;
use command_line::{report_arguments, report_streams};
use show_commands::AnnouncedInput;
use std::io::IsTerminal;
use std::{env, io};
use system_files::WithLastError;

// Does what the arguments ask for, over the process's streams.
fn run(rt: &HostRuntime) -> io::Result<u8>
    ensures { IfOk result (λ status. status ≤ 4) }
{
    let words: Vec<String> = env::args(rt)?.collect(rt.alloc())?;
    let announces = if rt.stdin().is_terminal() {
        Some(rt.stderr())
    } else {
        None
    };
    let (mut input, mut out) = (
        WithLastError::new(AnnouncedInput::new(rt.stdin(), announces)),
        WithLastError::new(rt.stdout()),
    );
    let to_terminal = rt.stderr().is_terminal();
    let mut errors = VisibleErrors::new(rt.stderr(), to_terminal);
    let terminal = if to_terminal { Some(rt.stderr()) } else { None };
    let status = run_words(
        rt,
        rt.alloc(),
        &words,
        rt.stdout().is_terminal(),
        terminal,
        &mut input,
        &mut out,
        &mut errors,
    );
    Ok(report_streams(status, &input, &out, &mut errors))
}

/// Does what the process's arguments ask for (`run_words`), and returns its exit status. Messages go to standard error, where a
/// terminal shows no control character of them. Arguments that are not UTF-8 are a usage error.
pub fn run_process(rt: &HostRuntime) -> u8
    ensures { result ≤ 4 }
{
    match run(rt) {
        Ok(status) => status,
        Err(error) => report_arguments(&error, &mut rt.stderr()),
    }
}
