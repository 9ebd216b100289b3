//! The argument that several commands share.

ghost use Rattle.std.specs.Prelude.{◌≡◌, false};
ghost use Rattle.clap.specs.Words.{rule_of};
ghost use Rattle.command_line.specs.Arguments.{files_rule};

use clap::Arg;
use std::alloc::Global;

/// `FILE..`: the inputs of a command.
pub fn files_argument<'a>(alloc: Global) -> Arg<'a>
    ensures rule { rule_of result ≡ files_rule }
    ensures local { result.global ≡ false }
{
    Arg::new(alloc, "files")
        .value_name("FILE")
        .num_args(1..)
        .required(true)
        .help("The solution files; standard input for -")
}
