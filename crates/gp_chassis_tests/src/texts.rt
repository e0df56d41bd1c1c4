//! The texts of faults.
use super::onu::prints;
use gp_accounts::CloseFault;
use gp_chassis::CoreFault;
use gp_journal::JournalFault;

const CLOSE: [(CloseFault, &'static str); 3] = [
    (CloseFault::WorkerMissing, "a worker is missing"),
    (CloseFault::Mismatch, "receipts and journals differ"),
    (CloseFault::OutOfMemory, "out of memory"),
];

const CORE: [(CoreFault, &'static str); 4] = [
    (CoreFault::NoActor, "no such actor"),
    (CoreFault::NoPort, "no such port"),
    (CoreFault::OutOfMemory, "out of memory"),
    (CoreFault::JournalFull, "journal full"),
];

#[test]
fn fault_texts(rt: HostRuntime) {
    for (fault, text) in &CLOSE {
        assert!(rt; prints(rt.alloc(), fault, text), "{text}");
    }
    for (fault, text) in &CORE {
        assert!(rt; prints(rt.alloc(), fault, text), "{text}");
    }
    assert!(rt; prints(rt.alloc(), &JournalFault::OutOfMemory, "out of memory"));
}
