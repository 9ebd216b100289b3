//! Reads a schedule of the network from standard input, and prints what it leaves. README.md says how to run it.
#![tactic(auto)]

use schedule_text::print_answer;
use std::io::{self, Read};
use std::process::ExitCode;

// Reads all of the input and prints the answer. Returns the exit status.
fn run(rt: &HostRuntime) -> io::Result<u8> {
    let mut text = Vec::new(rt.alloc());
    rt.stdin().read_to_end(&mut text)?;
    let (mut out, mut errors) = (rt.stdout(), rt.stderr());
    Ok(print_answer(rt.alloc(), &text, &mut out, &mut errors))
}

fn main(rt: HostRuntime) -> ExitCode {
    match run(&rt) {
        Ok(status) => ExitCode::from(status),
        Err(error) => {
            // There is nowhere left to report that this failed.
            let _ = eprintln!(rt; "replay_schedule: {error}");
            ExitCode::from(2)
        }
    }
}
