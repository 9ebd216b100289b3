//! A caller of `host_serving`.

ghost use Rattle.std.specs.Prelude.{◌≤◌};

use archive_serving::ServeArguments;
use host_serving::run_serve;
use std::alloc::Global;
use std::fs::File;
use std::io::Write;
use std::net::Net;
use std::random::RandomSource;
use std::rt::Files;
use std::time::Clock;

/// Serves as these arguments ask for, and returns the exit status.
pub fn serve<
    P: Files<File = File> + Net + Clock + RandomSource + Eprint + AllocGlobal + Copy,
    W: Write,
    E: Write,
>(rt: P, alloc: Global, arguments: &ServeArguments, out: &mut W, errors: &mut E) -> u8
    ensures { result ≤ 2 }
{
    run_serve(rt, alloc, arguments, out, errors)
}
