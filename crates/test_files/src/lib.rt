//! A system for tests: a file that a person names, and a new one beside it, in memory, as
//! [`FileCalls`](file_calls::FileCalls) says of the kernel and the device. Any call of it can be made to fail, the
//! process can be killed between any two calls or in one, and the machine can crash.
#![tactic(auto)]

mod calls;
mod change;
mod fault;
mod file;
mod log;
mod machine;
mod memory;
mod spares;
mod start;

pub use fault::Fault;
pub use memory::MemoryFileCalls;

#[cfg(test)]
mod tests {
    use crate::{Fault, MemoryFileCalls};
    use file_calls::FileCalls;
    use std::test::Fail;

    #[test]
    fn a_sync_after_a_failed_one_makes_nothing_sure(rt: HostRuntime) -> Result<(), Fail> {
        let fault = Fault::FailOnce { part: 0 };
        let mut calls = MemoryFileCalls::without_file(rt.alloc())?.with_fault(2, fault);
        calls.create_given()?;
        assert_eq!(rt; calls.write(b"abc")?, 3);
        assert!(rt; calls.sync_new().is_err());
        calls.sync_new()?;
        assert_eq!(rt; calls.pending(1)?, 3);
        Ok(())
    }
}
