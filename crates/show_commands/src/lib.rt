//! The commands `show` and `pack` of the program `tws`, over any reader and writer, the list of them, and the program
//! that has only these. Read `specs/ShowJobs.antt` first, then `specs/Written.antt` and `specs/SeveralInputs.antt`, and
//! for a command the file of its name. `specs/Knowing.antt` has only lemmas. The crate's README shows how it is called.
//!
//! Each command is a module with `command`, its command line, `asked`, what its arguments ask for, and `run`, which
//! does that, beside a function over any reader and writer, such as `run_show`. The list is in `show_job.rt`;
//! `show_files.rt` has `show` of several files. For every command on files, `input.rt` reads a solution file to the end of
//! an input, and `inputs.rt` several; `one_input.rt` runs a command of one input, and `several_inputs.rt` one of several;
//! `specs/Saying.antt` has what a command says of them; and `output.rt` puts its text into a file.
#![tactic(auto)]

mod announced_input;
mod arguments;
mod input;
mod input_file;
mod inputs;
mod not_opened;
mod one_input;
mod opening;
mod output;
pub mod pack;
mod program;
mod reader_sink;
mod reporting;
mod several_inputs;
pub mod show;
mod show_files;
mod show_job;
mod standard;

pub use announced_input::AnnouncedInput;
pub use arguments::files_argument;
pub use input::read_input;
pub use inputs::read_inputs;
pub use one_input::{OneInputCommand, run_one_input};
pub use output::{output_argument, output_name, refuse_terminal, save};
pub use pack::{PackArguments, run_pack};
pub use program::run_show_words;
pub use several_inputs::{SeveralInputsCommand, run_several_inputs};
pub use show::{ShowArguments, run_csv, run_show};
pub use show_job::{ShowJob, run_show_job, show_job_of, show_program};
pub use standard::read_bytes;
