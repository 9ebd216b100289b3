//! Why the arguments ask for no job.

ghost use Rattle.std.specs.Prelude.{◌≡◌, ◌≢◌, ◌⊎◌};
ghost use Rattle.clap.specs.Values.{kind_of};
ghost use Rattle.clap.specs.declared.error.kind.ErrorKind.TheVariants.{OutOfMemory};
ghost use Rattle.command_line.specs.declared.job_fault.JobFault.TheVariants.{Memory, Words};

use clap::error::ErrorKind;
use std::alloc::AllocError;

/// Why the arguments ask for no job.
#[derive(Drop)]
pub enum JobFault {
    /// A usage error, or a request for help.
    Words(clap::Error),
    /// Out of memory.
    Memory,
}

impl From<AllocError> for JobFault {
    ghost from_gives = { λ _ e. e ≡ Memory };

    fn from(_error: AllocError) -> Self {
        JobFault::Memory
    }
}

impl From<clap::Error> for JobFault {
    // An out-of-memory error is not a usage error.
    ghost from_gives = { λ error e. ((kind_of error ≡ OutOfMemory) × (e ≡ Memory)) ⊎ ((kind_of error ≢ OutOfMemory) × (e ≡ Words error)) };

    fn from(error: clap::Error) -> Self {
        match error.kind() {
            ErrorKind::OutOfMemory => JobFault::Memory,
            _ => JobFault::Words(error),
        }
    }
}
