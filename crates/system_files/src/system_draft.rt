//! The file that a client's output is written to.

ghost use Rattle.std.specs.Prelude.{◌≡◌, ◌≤◌, ◌+◌, length, None, Some, OnErr, IfOk, IfErr};
ghost use Rattle.std.specs.Io.{WritesAtMost};
ghost use Rattle.std.specs.Io.KnownBytes.{WriteAppends};

use crate::draft_file::DraftFile;
use std::fs::File;
use std::io;
use std::io::Write;
use std::random::RandomSource;
use std::rt::Files;

// Where a draft is written.
#[derive(Drop)]
pub(crate) enum Place {
    /// Into the file itself, which is not a regular one.
    Itself(File),
    /// Into a file beside it.
    Beside(DraftFile),
}

/// What is to become the contents of a file of the system. It has no ghost contents.
#[derive(Drop)]
pub struct SystemDraft<P: Files<File = File> + RandomSource + AllocGlobal + Copy> {
    rt: P,
    place: Place,
    // How many bytes were written into it.
    written: usize,
    // What the system said of the write that failed last, if one has.
    error: Option<io::Error>,
}

impl<P: Files<File = File> + RandomSource + AllocGlobal + Copy> SystemDraft<P> {
    /// An empty draft that is written there.
    pub(crate) fn new(rt: P, place: Place) -> Self
        ensures written { result.written ≡ 0 }
        ensures error { result.error ≡ None }
    {
        SystemDraft {
            rt,
            place,
            written: 0,
            error: None,
        }
    }

    /// How many bytes were written into it.
    pub fn written(&self) -> usize
        ensures { result ≡ self.now.written }
    {
        self.written
    }

    /// What the system said of the write that failed last, if one has.
    pub(crate) fn error(&self) -> Option<io::Error>
        ensures { result ≡ self.now.error }
    {
        self.error
    }

    /// Removes the file of the draft, if it has one of its own.
    pub(crate) fn remove(&mut self) {
        if let Place::Beside(beside) = &mut self.place {
            beside.remove(&self.rt);
        }
    }

    /// Puts the draft in place of what the file had.
    pub(crate) fn replace(&mut self) -> io::Result<()> {
        match &mut self.place {
            Place::Itself(_) => Ok(()),
            Place::Beside(beside) => beside.replace(&self.rt),
        }
    }
}

impl Place {
    // Writes bytes there, and returns how many.
    fn write<P: Files<File = File> + RandomSource + AllocGlobal>(
        &mut self,
        rt: &P,
        buf: &[u8],
    ) -> io::Result<usize>
        ensures { IfOk result (λ count. count ≤ length buf.now) }
    {
        match self {
            Place::Itself(file) => file.write(buf),
            Place::Beside(beside) => beside.write(rt, buf),
        }
    }
}

impl<P: Files<File = File> + RandomSource + AllocGlobal + Copy> Write for SystemDraft<P> {
    fn write(&mut self, buf: &[u8]) -> io::Result<usize>
        ensures bound { WritesAtMost result buf.now }
        ensures bytes { WriteAppends None None result buf.now }
        ensures written { IfOk result (λ count. self.new.written ≡ self.old.written + count) }
        ensures kept { OnErr result (self.new.written ≡ self.old.written) }
        ensures last { IfErr result (λ e. self.new.error ≡ Some e) }
    {
        // No more than can be counted.
        let len = buf.len().min(usize::MAX - self.written);
        match self.place.write(&self.rt, &buf[..len]) {
            Ok(count) => {
                self.written += count;
                Ok(count)
            }
            Err(error) => {
                self.error = Some(error);
                Err(error)
            }
        }
    }

    fn flush(&mut self) -> io::Result<()> {
        Ok(())
    }
}
