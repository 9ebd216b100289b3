//! `best` over folders in memory.

ghost use Rattle.std.specs.Prelude.{[], None, Some};

use crate::files::Input;
use file_commands::run_file_job;
use std::alloc::Global;
use std::io;
use std::test::Fail;
use system_files::Unlisted;
use test_samples::HUNDRED;
use tws_file::Ruleset;
use tws_tool::{BestArguments, FileJob, FileSystem, Source};

// A folder `sent` with a file that can be read and one that cannot, and a folder `shut`, of which a part cannot be listed.
#[derive(Clone, Copy)]
struct Folders(Global);

impl FileSystem for Folders {
    type File = Input<'static>;

    type Draft = Vec<u8>;

    ghost bytes_of = { λ _ _. None };

    ghost drafted_of = { λ _ _. Some [] };

    ghost opens_of = { λ _ _. None };

    ghost below_of = { λ _ _. None };

    fn open(&self, name: &str) -> io::Result<Input<'static>> {
        match name {
            "sent/1/a.tws" => Ok(Input::Whole(HUNDRED)),
            "sent/2/b.tws" => Ok(Input::Failing),
            _ => Err(io::Error::from(io::ErrorKind::NotFound)),
        }
    }

    fn files_below(&self, name: &str) -> Result<Option<Vec<String>>, Unlisted> {
        match name {
            "sent" => {
                let mut files = Vec::new(self.0);
                files.push(String::from_str(self.0, "sent/1/a.tws")?)?;
                files.push(String::from_str(self.0, "sent/2/b.tws")?)?;
                Ok(Some(files))
            }
            "shut" => Err(Unlisted::Folder {
                name: String::from_str(self.0, "shut/in")?,
                cause: io::Error::from(io::ErrorKind::PermissionDenied),
            }),
            _ => Ok(None),
        }
    }

    fn begin(&mut self, _name: &str) -> io::Result<Vec<u8>> {
        Ok(Vec::new(self.0))
    }

    fn publish(&mut self, _name: &str, _draft: Vec<u8>) -> io::Result<()> {
        Err(io::Error::from(io::ErrorKind::Unsupported))
    }

    fn abandon(&mut self, _draft: Vec<u8>) -> Option<io::Error> {
        None
    }
}

// The status of `best` over a folder, what it says, and how many bytes it writes.
fn best_of(rt: &HostRuntime, folder: &str) -> Result<(u8, Vec<u8>, usize), Fail> {
    let mut files = Vec::new(rt.alloc());
    files.push(Source::Named(String::from_str(rt.alloc(), folder)?))?;
    let job = FileJob::Best(BestArguments {
        ruleset: Ruleset::Lynx,
        files,
        output: None,
    });
    let mut system = Folders(rt.alloc());
    let mut input: &[u8] = &[];
    let mut out = Vec::new(rt.alloc());
    let mut errors = Vec::new(rt.alloc());
    let status = run_file_job(
        &mut system,
        rt.alloc(),
        &job,
        false,
        &mut input,
        &mut out,
        &mut errors,
    );
    Ok((status, errors, out.len()))
}

// Whether `best` over a folder fails, says this, and writes nothing.
fn fails(rt: &HostRuntime, folder: &str, says: &[u8]) -> Result<bool, Fail> {
    let (status, errors, count) = best_of(rt, folder)?;
    Ok(status == 2 && errors.as_slice() == says && count == 0)
}

#[test]
fn a_file_in_a_folder_that_cannot_be_read_is_named(rt: HostRuntime) -> Result<(), Fail> {
    let says = b"tws: read fault\ntws: sent/2/b.tws: other error\n";
    assert!(rt; fails(&rt, "sent", says)?);
    Ok(())
}

#[test]
fn a_folder_that_cannot_be_listed_is_named(rt: HostRuntime) -> Result<(), Fail> {
    let says = b"tws: read fault\ntws: shut/in: permission denied\n";
    assert!(rt; fails(&rt, "shut", says)?);
    Ok(())
}
