//! The command `serve`, as one call that `run_job` is proved over.

ghost use Rattle.std.specs.Prelude.{◌≡◌, ◌≤◌};
ghost use Rattle.archive_serving.specs.Serve.{ServeRan};

use archive_serving::ServeArguments;
use host_serving::run_serve;
use std::alloc::Global;
use std::fs::File;
use std::io::Write;
use std::net::Net;
use std::random::RandomSource;
use std::rt::Files;
use std::time::Clock;

/// Runs `serve` over the system, and returns the status.
pub(crate) fn run<
    P: Files<File = File> + Net + Clock + RandomSource + Eprint + AllocGlobal + Copy,
    W: Write,
    E: Write,
>(rt: P, alloc: Global, arguments: &ServeArguments, out: &mut W, errors: &mut E) -> u8
    ensures ran { ServeRan arguments.now result (W.contents out.old) (W.contents out.new) }
    ensures usage { result ≡ 1 → out.new ≡ out.old }
    ensures status { result ≤ 2 }
    ensures silent { result ≡ 0 → errors.new ≡ errors.old }
{
    run_serve(rt, alloc, arguments, out, errors)
}
