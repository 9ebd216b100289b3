//! The commands `without`, `best`, `compare` and `page` of the program `tws`, over any reader and writer, and the list of all
//! commands on files (`file_job.rt`). Read `specs/FileJobs.antt` first, then `specs/SeveralInputs.antt` of `show_commands`, which
//! says what `best` and `page` have in common, and for a command the file of its name. `specs/Knowing.antt` has only lemmas. The crate's README shows how it is called.
//!
//! Each command is a module with `command`, its command line, `asked`, what its arguments ask for, and `run`, which
//! does that, beside a function over any reader and writer, such as `run_best`. `best` and `page` are run by
//! `run_several_inputs`, and `without`, as the commands of `show_commands` over one file, by `run_one_input`.
#![tactic(auto)]

mod best;
mod best_files;
mod compare;
mod file_job;
mod level_file;
mod notes;
mod page;
mod without;

pub use best::{BestArguments, run_best};
pub use compare::{CompareArguments, run_compare};
pub use file_job::{FileJob, file_job_of, file_program, run_file_job};
pub use page::{PageArguments, run_page};
pub use without::{WithoutArguments, run_without};
