//! The program `tws`.
#![tactic(auto)]

use std::process::ExitCode;
use tws_tool::run_process;

fn main(rt: HostRuntime) -> ExitCode {
    ExitCode::from(run_process(&rt))
}
