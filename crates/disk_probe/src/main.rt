//! Answers orders on disks over systems in memory and on disks of folders, so that the gate can compare the answers
//! with expected ones. Each line of standard input is an order, a word and what belongs to it, with `;` between them.
//! It is answered in one line. A line that begins with `#` is printed as it is. The program ends with 0, or with 1 if
//! reading or printing failed.
//!
//! `runs;SCRIPT`: performs a script of runs of the disk of a store over a system in memory, lets each call of the
//! system fail, kills the process at each and crashes the machine at each moment, and looks at what a next run finds.
//!
//! - A script is calls with a space between them. `again` ends a run, and begins the next one. It is performed on the
//!   folder of a store that has the bytes `0`, or, if it begins with `new`, on an empty one.
//! - The calls are those of the disk, `append:BYTES`, `sync`, `create`, `stage:BYTES`, `sync_next`, `rename`, `remove`
//!   and `folder`, and procedures of the journal, `load`, `append_closed:BYTES`, `stage_next:BYTES`, `swap_next` and
//!   `finish_next`.
//! - The answer is how many calls are done where none fails, and `nothing lost`, or the first run after which something
//!   was. A next run has to find, under `store.yaml`, all bytes of which a call said that the device has them, and
//!   after them only bytes that were appended, after a crash each as it was or zero. If there are bytes of a second
//!   append that waited for one sync, it has to say that several may have. A file that was renamed to `store.yaml` may
//!   be missing there until the folder is synced. What the next run finds it syncs, and the machine crashes once more:
//!   all of it has to be left.
//!
//! The group `folder`, folders of the system and the disk of one of them:
//!
//! - `make;NAME`: makes the folder, or finds it. `unmake`: removes the folder that was made last, if nothing is in it.
//!   `remove;NAME`: removes it, with all that is in it. `files;NAME`: which files of a store are in it.
//! - What others do to a file: `write;PATH;BYTES` gives it other bytes, `replace;PATH;BYTES` puts a new file in its
//!   place, and `unlink;PATH` removes it. `show;PATH`: what it reads as.
//! - `take;NAME`: takes the disk of the folder. `take_store;NAME`: the same, if there is a store. `take_new;NAME`: the
//!   same, if there is none. `take_for_reading;NAME`: the same, for reading alone. `close`: closes the disk that was
//!   taken. `release`: the same, at the end of a run.
//! - A call of the disk that was taken, `failures`, `several_waited`, `read;NAME;LIMIT`, `create_next`,
//!   `append;NAME;BYTES`, `sync;NAME`, `rename_next`, `remove_next` or `sync_folder`, where a `NAME` is `store` or
//!   `next`. Or a procedure of the journal, `load`, `append_store;BYTES`, `sync_store`, `append_closed;BYTES`,
//!   `begin_next`, `append_next;BYTES`, `sync_next`, `stage_next;BYTES`, `swap_next` or `finish_next`. `cause`: why the
//!   one that failed last did.
//!
//! What fails is answered with the fault. Where a folder can't be made or taken, its cause follows. In the answer to
//! `cause` the folder is `it`. The disk returns `Device` if there is no file to be appended to or renamed, or if there
//! is one that is to be created.
#![tactic(auto)]

mod attacks;
mod calls;
mod folder_orders;
mod folders;
mod guarded;
mod orders;
mod promises;
mod script;

use orders::Disks;
use probe_words::answer_lines;
use std::process::ExitCode;

fn main(rt: HostRuntime) -> ExitCode {
    answer_lines(&rt, &mut Disks::new(&rt))
}
