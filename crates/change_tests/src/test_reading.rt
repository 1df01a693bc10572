// What is read of a body.
use change_record::{ChangeFault, read_change};
use std::alloc::Global;

/// Whether these bytes are the body of no change.
pub fn is_refused(alloc: Global, bytes: &[u8]) -> bool {
    match read_change(alloc, bytes) {
        Ok(_) => false,
        Err(fault) => fault == ChangeFault::NotAChange,
    }
}
