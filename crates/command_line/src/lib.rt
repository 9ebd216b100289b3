//! The command line of the program `tws`: the arguments that its commands share, as `clap` reads them; where an input
//! is read from, and how it is read to its end; and why a command fails, and how that is reported. README.md has a
//! caller, and what is proved.
//!
//! Read `specs/Arguments.antt` first: it says what was given for an argument. `specs/CommandLine.antt` says what the
//! arguments of a program ask for, `specs/Faults.antt` has the exit statuses, `specs/Inputs.antt` what is known of an
//! input, `specs/Reading.antt` what reading one did, `specs/Saying.antt` what a command says, `specs/Printing.antt` what is
//! printed of a fault, and `specs/Help.antt` what a run did that was asked for no job.
#![tactic(auto)]

mod arguments;
mod help;
mod input;
mod input_sink;
mod job_fault;
mod laws;
mod limits;
mod opening;
mod printing;
mod program;
mod reporting;
mod saying;
mod source;
mod status;
mod streams;
mod tool_fault;
mod unreadable;
mod version;

pub use arguments::{
    new_command, number_up_to, ruleset_argument, ruleset_given, ruleset_names, source_argument,
    source_given, sources_given, string_given, text_given,
};
pub use help::report_job_fault;
pub use input::read_to_end;
pub use input_sink::InputSink;
pub use job_fault::JobFault;
pub use laws::limit_values;
pub use limits::{INPUT_PIECE, INPUT_READS};
pub use opening::open_named;
pub use printing::{print_about, print_words};
pub use program::{add_command, found_in, new_program, unknown_command};
pub use reporting::{finish, report, report_arguments, report_cause, report_file};
pub use saying::say;
pub use source::Source;
pub use status::{DONE, FAILED, NOT_TRANSFERRED, UNREADABLE, USAGE};
pub use streams::report_streams;
pub use tool_fault::ToolFault;
pub use version::VERSION;
