//! What the words of a command line ask for.

ghost use Rattle.std.specs.Prelude.{Err, IfErr, IfOk, map, string_bytes};
ghost use Rattle.command_line.specs.Arguments.{AreRulesetNames};
ghost use Rattle.tws_tool.specs.CommandLine.{AnswersWords, FindsWords};

use crate::job::{Job, asked, command};
use clap::ArgMatches;
use command_line::{JobFault, found_in, ruleset_names, unknown_command};
use std::alloc::Global;

// What the arguments find in the command line.
fn found<'a>(
    alloc: Global,
    names: &'a [&'a str],
    words: &'a [String],
) -> Result<ArgMatches<'a>, JobFault>
    requires { AreRulesetNames names }
    ensures found { IfOk result (FindsWords (map string_bytes words.now)) }
    ensures refused { IfErr result (λ why. AnswersWords (map string_bytes words.now) (Err why)) }
{
    found_in(command(alloc, names)?, words)
}

/// What the arguments ask for. The first of them is the program's name.
///
/// # Errors
///
/// `Words` if they ask for help, have a fault, or ask for nothing that there is; `Memory` if an allocation was refused.
pub fn job_of(alloc: Global, words: &[String]) -> Result<Job, JobFault>
    ensures { AnswersWords (map string_bytes words.now) result }
{
    let found = found(alloc, ruleset_names(), words)?;
    if let Some((name, words)) = found.subcommand() {
        if let Some(job) = asked(alloc, name, words)? {
            return Ok(job);
        }
    }
    Err(unknown_command(command(alloc, ruleset_names())?))
}
