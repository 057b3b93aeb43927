//! The locks of a folder in memory, for tests, as [`LockSystem`](conf_locks::LockSystem) says of the system. Between
//! the calls of one run others make theirs, as a test chooses them, if they keep to the rules.
#![tactic(auto)]

ghost use Rattle.std.specs.Prelude.{◌≡◌};
ghost use Rattle.test_locks.specs.Memory.{locks_in};
ghost use Rattle.test_locks.specs.Tables.{locks_of};

mod call;
mod locks;
mod system;
mod table;

pub use call::{LockCall, OtherCall};
pub use locks::{LockFault, MemoryLocks};
pub use table::LockTable;

#[cfg(test)]
mod tests {
    use crate::{LockFault, LockTable, MemoryLocks};
    use conf_locks::{LockPlace, NotTaken, take_locks};
    use std::alloc::Global;
    use std::test::Fail;

    /// A run with this number, beside which no other makes a call.
    fn alone(alloc: Global, table: LockTable, run: usize) -> MemoryLocks
        ensures locks { locks_in result ≡ locks_of table }
        ensures run { result.run ≡ run }
    {
        MemoryLocks::new(table, run, Vec::new(alloc), LockFault::None)
    }

    #[test]
    fn a_second_run_is_kept_out(rt: HostRuntime) -> Result<(), Fail> {
        let alloc = rt.alloc();
        let table = LockTable::new(alloc, 2)?;
        assert!(rt; table.holds_none(0));
        let mut first = alone(alloc, table, 0);
        assert!(rt; take_locks(&mut first).is_ok());
        let table = first.into_table();
        assert!(rt; table.holds_none(1));
        let mut second = alone(alloc, table, 1);
        assert!(rt; matches!(take_locks(&mut second), Err(NotTaken::Locked(_))));
        Ok(())
    }

    #[test]
    fn a_run_that_may_not_open_the_file_finds_the_folder_locked(
        rt: HostRuntime,
    ) -> Result<(), Fail> {
        let alloc = rt.alloc();
        let table = LockTable::new(alloc, 2)?;
        assert!(rt; table.holds_none(0));
        let mut first = alone(alloc, table, 0);
        assert!(rt; take_locks(&mut first).is_ok());
        let table = first.into_table();
        assert!(rt; table.holds_none(1));
        let path = table.path();
        let mut second = alone(alloc, table, 1).without_access();
        assert!(rt;
            matches!(
                take_locks(&mut second),
                Err(NotTaken::Locked(LockPlace::Folder))
            )
        );
        assert!(rt; second.into_table().path() == path);
        Ok(())
    }
}
