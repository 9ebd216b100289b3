//! The names of faults.

// The names of the faults of a receiver, as a log or a test prints them.
use std::alloc::Global;
use std::test::Fail;
use tftp_ends::RecvFault;

fn has_name(alloc: Global, fault: RecvFault, name: &str) -> Result<bool, Fail> {
    Ok(format!(in alloc; "{fault}")?.as_str() == name)
}

#[test]
fn faults_by_name(rt: HostRuntime) -> Result<(), Fail> {
    for (fault, name) in [
        (RecvFault::Memory, "Memory"),
        (RecvFault::TooLong, "TooLong"),
    ] {
        assert!(rt; has_name(rt.alloc(), fault, name)?, "{name}");
    }
    Ok(())
}
