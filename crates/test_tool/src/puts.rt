//! Puts of inputs that are too long or fail.

// Puts of inputs that fail, or do not end.
use crate::streams::*;
use archive_memory::MemoryWire;
use std::io::{self, Read};
use std::test::Fail;
use test_samples::{ALICE, HUNDRED, SERVER};
use tftp_packet::Cause;
use tws_file::FileFault;
use tws_tool::{ToolFault, put_file};

// The result of a put of this input, how many calls of its wire it makes, and how many bytes it prints.
fn put_of<R: Read>(
    rt: &HostRuntime,
    input: &mut R,
) -> Result<(Result<(), ToolFault>, usize, usize), Fail> {
    let mut wire = MemoryWire::new(rt.alloc(), vec![in rt.alloc(); ALICE.port]?);
    let mut out = Vec::new(rt.alloc());
    let done = put_file(rt.alloc(), input, &mut wire, SERVER, &mut out);
    Ok((done, wire.log().len(), out.len()))
}

// The most bytes of a file that can be sent.
const MOST: u32 = 33_553_919;

// What a put of so many zeros after these bytes comes to, and how many of the zeros it has not read.
fn put_of_zeros(
    rt: &HostRuntime,
    first: &[u8],
    count: u32,
) -> Result<((Result<(), ToolFault>, usize, usize), u32), Fail> {
    let mut input = first.chain(Drops { left: count });
    let put = put_of(rt, &mut input)?;
    Ok((put, input.get_ref().1.left))
}

// An input that does not end is left at the byte that makes it unreadable, or at the first one that is too many: zeros
// after a header are pads.
#[test]
fn a_put_of_zeros(rt: HostRuntime) -> Result<(), Fail> {
    let too_long = ToolFault::Transfer(Cause::TooLong);
    let unreadable = ToolFault::Unreadable {
        index: 0,
        fault: FileFault::BadSignature,
    };
    let header = &HUNDRED.as_slice()[..8];
    for (first, fault, read) in [(&header[..0], unreadable, 8), (header, too_long, MOST - 7)] {
        assert_eq!(rt;
            put_of_zeros(&rt, first, u32::MAX)?,
            ((Err(fault), 0, 0), u32::MAX - read)
        );
    }
    Ok(())
}

// What a put comes to whose input returns these bytes, and then fails.
fn put_that_breaks(
    rt: &HostRuntime,
    bytes: Option<&[u8]>,
    kind: io::ErrorKind,
) -> Result<(Result<(), ToolFault>, usize, usize), Fail> {
    put_of(rt, &mut Breaks { bytes, kind })
}

// Nothing is sent for a file that is read in part. A reader that runs out of memory is reported as `Read`, not as
// `Memory`.
#[test]
fn a_put_of_an_input_that_breaks(rt: HostRuntime) -> Result<(), Fail> {
    let file = HUNDRED.as_slice();
    for (bytes, kind) in [
        (None, io::ErrorKind::Other),
        (Some(&file[..10]), io::ErrorKind::Other),
        (Some(file), io::ErrorKind::OutOfMemory),
    ] {
        assert_eq!(rt;
            put_that_breaks(&rt, bytes, kind)?,
            (Err(ToolFault::Read), 0, 0)
        );
    }
    Ok(())
}

// What a put comes to whose input fails at its first read, and would then return a whole file.
fn put_that_stumbles(rt: &HostRuntime) -> Result<(Result<(), ToolFault>, usize, usize), Fail> {
    let mut input = Stumbles {
        bytes: HUNDRED,
        has_failed: false,
    };
    put_of(rt, &mut input)
}

#[test]
fn a_put_of_an_input_that_stumbles(rt: HostRuntime) -> Result<(), Fail> {
    assert_eq!(rt; put_that_stumbles(&rt)?, (Err(ToolFault::Read), 0, 0));
    Ok(())
}
