//! Inputs and outputs that fail.

// Inputs for the tests, and what is said of one that failed.
use std::io;
use std::io::Read;
use tws_tool::{WithLastError, report_streams};

// Fails at its first read, and returns these bytes after that.
#[derive(Drop)]
pub(crate) struct Stumbles<'a> {
    pub(crate) bytes: &'a [u8],
    pub(crate) has_failed: bool,
}

impl io::Read for Stumbles<'_> {
    fn read(&mut self, buf: &mut [u8]) -> io::Result<usize> {
        if self.has_failed {
            return self.bytes.read(buf);
        }
        self.has_failed = true;
        Err(io::Error::from(io::ErrorKind::Other))
    }
}

// Returns one byte at each read, and ends after `left` of them.
#[derive(Drop)]
pub(crate) struct Drops {
    pub(crate) left: u32,
}

impl io::Read for Drops {
    fn read(&mut self, buf: &mut [u8]) -> io::Result<usize> {
        if self.left == 0 || buf.is_empty() {
            return Ok(0);
        }
        self.left -= 1;
        buf[0] = 0;
        Ok(1)
    }
}

// Returns these bytes at the first read, and fails at the next.
#[derive(Drop)]
pub(crate) struct Breaks<'a> {
    pub(crate) bytes: Option<&'a [u8]>,
    pub(crate) kind: io::ErrorKind,
}

impl io::Read for Breaks<'_> {
    fn read(&mut self, buf: &mut [u8]) -> io::Result<usize> {
        match self.bytes.take() {
            Some(mut bytes) => bytes.read(buf),
            None => Err(io::Error::from(self.kind)),
        }
    }
}

// What is printed of an input that fails at its second read, after so many reads, at this status.
fn said_after(rt: &HostRuntime, reads: u32, status: u8) -> Vec<u8> {
    let mut input = WithLastError::new(Breaks {
        bytes: Some(b"ab"),
        kind: io::ErrorKind::PermissionDenied,
    });
    let mut buffer = [0; 4];
    for _ in 0..reads {
        let _ = input.read(&mut buffer);
    }
    let out = WithLastError::new(io::sink());
    let mut errors = Vec::new(rt.alloc());
    let _ = report_streams(status, &input, &out, &mut errors);
    errors
}

#[test]
fn an_input_that_failed(rt: HostRuntime) {
    let (early, failed, other) = (
        said_after(&rt, 1, 2),
        said_after(&rt, 2, 2),
        said_after(&rt, 2, 4),
    );
    assert_eq!(rt;
        (early.as_slice(), failed.as_slice(), other.as_slice()),
        (
            b"".as_slice(),
            b"tws: standard input: permission denied\n".as_slice(),
            b"".as_slice()
        )
    );
}
