// Laws of the program's calls on a store.
ghost use Rattle.conf_tools.specs.ProgramCalls.{CallHolds, CallsHold};

use conf_disk::{Disk, reading_is_an_image};
use conf_store::bytes_mean_one_state;

/// Whatever crash happens within one of the program's calls on a folder, no command is lost that was answered, and none
/// is kept that was not accepted. [`calls_hold`] says the same of lists of calls, and what calls these are.
pub fn call_holds<D: Disk>()
    ensures { D.model.honest → CallHolds D.model }
{
    bytes_mean_one_state();
    reading_is_an_image();
}

/// Whatever crashes happen within and between the program's calls on a folder, no command is lost that was answered,
/// and none is kept that was not accepted.
///
/// Take any list of calls of [`run_store`](crate::run_store), [`change_store`](crate::change_store),
/// [`export_text`](crate::export_text) and [`make_store`](crate::make_store) on an honest disk. Each of them returned,
/// whatever it returned, or was cut off. What it may have left then is what its clause `crashes` says, and the next
/// call finds a folder of which a crash leaves no more than that. So a crash may come between two calls, or not. Let
/// each image that a crash leaves of the first folder mean a state, as a folder without `store.yaml` means the empty
/// one; these states may differ. Then what a crash leaves in the end, and what is read there, means what a list of
/// commands makes of one of these states. This list has, for each call in turn, a prefix of the commands that it
/// accepted. If the call returned, the prefix has every command whose answer was written, and that of a change that was
/// made.
pub fn calls_hold<D: Disk>()
    ensures { D.model.honest → CallsHold D.model }
{
    bytes_mean_one_state();
    reading_is_an_image();
}
