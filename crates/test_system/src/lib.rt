//! A system for tests: one folder in memory, as [`System`](conf_system::System) says of the kernel and the device. Any
//! call of it can be made to fail, the process can be killed between any two calls or in one, and the machine can
//! crash.
#![tactic(auto)]

mod change;
mod crash;
mod fault;
mod log;
mod machine;
mod memory;
mod spares;
mod start;
mod system;
mod version;

pub use crash::{Crash, Torn};
pub use fault::Fault;
pub use memory::MemorySystem;

#[cfg(test)]
mod tests {
    use crate::{Fault, MemorySystem};
    use conf_system::{FileName, System};
    use std::test::Fail;

    #[test]
    fn a_sync_after_a_failed_one_makes_nothing_sure(rt: HostRuntime) -> Result<(), Fail> {
        let mut system = MemorySystem::new(rt.alloc())?.with_fault(2, Fault::FailOnce { part: 0 });
        system.create_next()?;
        assert_eq!(rt; system.write(FileName::Next, b"abc")?, 3);
        assert!(rt; system.sync(FileName::Next).is_err());
        system.sync(FileName::Next)?;
        assert_eq!(rt; system.pending(1, FileName::Next, 0)?, Some(3));
        Ok(())
    }
}
