//! A caller of `refusing`.

use refusing::{Complaint, Outcome, Refusing, refuse_each};
use std::alloc::Global;

/// Copies five bytes again and again: each time the next request for memory is refused, until none is left to refuse. At
/// least one request is made, and the copy in which none was refused is whole.
pub fn copy_refused(global: Global) -> Result<(), Complaint> {
    refuse_each(
        global,
        1,
        &|refusing: &Refusing<Global>| match Vec::from_slice(refusing, b"bytes") {
            Ok(copy) => Outcome::of(copy.as_slice() == b"bytes".as_slice()),
            Err(_) => Outcome::OutOfMemory,
        },
    )
}
