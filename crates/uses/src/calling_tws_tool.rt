//! A caller of `tws_tool`.

use std::alloc::Global;
use tws_tool::{Job, job_of};

/// Whether these arguments, of which the first is the program's name, ask for a server.
pub fn asks_to_serve(alloc: Global, words: &[String]) -> bool {
    let job = job_of(alloc, words);
    let serves = matches!(&job, Ok(Job::Serve(_)));
    drop(job);
    serves
}
