//! The program `tws`: the job that the arguments ask for, of the commands on files (`file_commands`) or of those of the
//! archive (`archive_commands`, `archive_serving`). Read `specs/Jobs.antt` first, then `specs/CommandLine.antt`. The crate's
//! README shows how it is called.
#![tactic(auto)]

mod client_network;
mod job;
mod laws;
mod process;
mod program;
mod refusal_wire;
mod serving;
mod visible_errors;
mod words;

pub use archive_arguments::PORT;
pub use archive_commands::{
    GetArguments, GetFault, Network, PutArguments, ROUNDS, Resolver, SyncArguments, Target,
    TransferWire, get_file, put_file,
};
pub use archive_host::{DirKeeper, HostFolder, OpenFault};
pub use archive_memory::{Entry, MemoryWire};
pub use archive_runs::{GetRun, PutRun, RunFault, get_in_rounds, put_in_rounds, run_get, run_put};
pub use archive_server::{Server, serve_rounds, serve_turns};
pub use archive_serving::{PER_HOST, ServeArguments, Service, TURNS, TurnLimit};
pub use archive_sockets::UdpWire;
pub use archive_wire::{ReadyWire, Wire, WireFault};
pub use command_line::{
    INPUT_READS, JobFault, Source, ToolFault, VERSION, report_arguments, report_streams,
};
pub use file_commands::{
    BestArguments, CompareArguments, FileJob, PageArguments, WithoutArguments, run_best,
    run_compare, run_page, run_without,
};
pub use job::Job;
pub use laws::words_of_commands;
pub use process::run_process;
pub use program::{run_words, run_words_with};
pub use show_commands::{
    AnnouncedInput, PackArguments, ShowArguments, run_csv, run_pack, run_show,
};
pub use system_files::{FileSystem, System, WithLastError};
pub use visible_errors::VisibleErrors;
pub use words::job_of;
