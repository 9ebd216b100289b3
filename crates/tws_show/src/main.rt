//! The program `tws` with only `show` and `pack`, which is proved and built sooner: the launcher runs it for these commands
//! until the whole program is there.
#![tactic(auto)]

use command_line::{report_arguments, report_streams};
use show_commands::{AnnouncedInput, run_show_words};
use std::io::IsTerminal;
use std::process::ExitCode;
use std::{env, io};
use system_files::{System, WithLastError};

fn run(rt: &HostRuntime) -> io::Result<u8> {
    let words: Vec<String> = env::args(rt)?.collect(rt.alloc())?;
    let announces = if rt.stdin().is_terminal() {
        Some(rt.stderr())
    } else {
        None
    };
    let (mut input, mut out) = (
        WithLastError::new(AnnouncedInput::new(rt.stdin(), announces)),
        WithLastError::new(rt.stdout()),
    );
    let mut errors = rt.stderr();
    let status = run_show_words(
        &mut System(*rt),
        rt.alloc(),
        &words,
        rt.stdout().is_terminal(),
        &mut input,
        &mut out,
        &mut errors,
    );
    Ok(report_streams(status, &input, &out, &mut errors))
}

fn main(rt: HostRuntime) -> ExitCode {
    let status = match run(&rt) {
        Ok(status) => status,
        Err(error) => report_arguments(&error, &mut rt.stderr()),
    };
    ExitCode::from(status)
}
