// What is said of the bytes after the last whole record of a store's file, which opening it drops.
ghost use Rattle.std.specs.Prelude.{◌≡◌, IfErr, IfOk, OnErr, OnOk};
ghost use Rattle.conf_tools.specs.Prelude.{store_file, store_note};
ghost use Rattle.conf_tools.specs.Dropped.{HasNoRest, TellsCount, TellsDropped, TellsDroppedOf, dropped_bytes_line};
ghost use Rattle.conf_tools.specs.Stores.{CannotOpen, OpensOn};

use crate::listener::Listener;
use conf_disk::Disk;
use conf_store::{OpenFault, Store};
use itoa::Buffer;
use std::alloc::Global;

/// Opens the store on `disk`, and tells in one line how many bytes after the last whole record were dropped, if any
/// were. Nothing waits then, and no checkpoint runs.
///
/// # Errors
/// Those of [`Store::open`], with the disk. Nothing is told.
pub(crate) fn open_told<D: Disk + Drop, E: Listener>(
    alloc: Global,
    disk: D,
    errors: &mut E,
) -> Result<Store<D>, (D, OpenFault)>
    ensures opens { IfOk result (OpensOn D.model disk) }
    ensures refused { IfErr result (λ r.
        CannotOpen D.model disk r.0 r.1) }
    ensures told { TellsDropped E.hears errors.old errors.new }
    ensures untold { OnErr result (errors.new ≡ errors.old) }
    ensures dropped { D.model.honest → OnOk result
        (TellsDroppedOf E.hears (store_note D.model disk) (store_file D.model disk)
        errors.old errors.new) }
    ensures quiet { D.model.honest → HasNoRest (store_note D.model disk) (store_file D.model disk)
        → errors.new ≡ errors.old }
{
    match Store::open(alloc, disk) {
        Ok((store, opened)) => {
            tell_dropped(errors, opened.dropped);
            Ok(store)
        }
        Err(refused) => Err(refused),
    }
}

/// Tells in one line how many bytes were dropped; nothing if none were.
fn tell_dropped<E: Listener>(errors: &mut E, dropped: u64)
    ensures { TellsCount E.hears dropped errors.old errors.new }
{
    match dropped {
        0 => {}
        1 => errors.tell(
            "confstore: the last byte of store.yaml was dropped: it was no whole record\n",
        ),
        _ => tell_dropped_bytes(errors, dropped),
    }
}

/// Tells the line for more than one byte.
fn tell_dropped_bytes<E: Listener>(errors: &mut E, dropped: u64)
    ensures { E.hears errors.old (dropped_bytes_line dropped) errors.new }
{
    let mut digits = Buffer::new();
    errors.tell("confstore: the last ");
    errors.tell(digits.format(dropped));
    errors.tell(" bytes of store.yaml were dropped: they were no whole record\n");
}
