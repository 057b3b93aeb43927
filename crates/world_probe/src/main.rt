//! Runs lists of the program's words in worlds in memory, and cuts them off at each call of a system, so that the gate
//! can compare what is left with expected answers. Each line of standard input is an order, which is answered in one
//! line. A line that begins with `#` is printed as it is. The program ends with 0, or with 1 if reading or printing
//! failed.
//!
//! Each folder of a world is a system in memory, which a run opens and ends by the protocol of real folders. Only calls
//! that change something are counted, and readings of the note.
//!
//! - `list`: begins a list, which has no words yet, and whose world is empty. The answer is `begun`.
//! - `folder PATH` and `file PATH TEXT`: an empty folder and a file that are there from the beginning. The file
//!   `FOLDER/store.yaml` makes that folder, in which no run has noted anything of it. The answer is `given`.
//! - `confstore WORD..`: runs these words in the world that the list has left, as its next run. ` < TEXT` after them is
//!   their standard input. The answer is the status and what is printed, and what is said on standard error if that is
//!   anything.
//! - `crash`: kills the last run of the list after each of its calls, from none to all, and crashes the machine then.
//!   The answer is how many calls it makes, and for each folder how often which state is left. A kill leaves what is in
//!   memory. A crash leaves an image for each stage of the names, each version of `store.yaml`, and each tear of the
//!   pending bytes. A tear is a cut, with so many zeros behind the bytes that are kept, or a hole, one zero among all
//!   bytes. `crash ends` takes of the cuts those alone that have no zeros, or as many as fit.
//! - `names`: compares the names by which the program tells faults with the messages of the faults' own crates. The
//!   answer is how many are alike, and the others.
//!
//! A state is shown as the number of its commands and each configuration as JSON, as `2 a={"k":"v"} b=[]`, or as
//! `no store`. It is that of the folder after it was opened again. If another state is left than one after a first part
//! of the run's commands that has all that were acknowledged, the answer begins with `wrong`.
//!
//! In words and texts `\n`, `\t` and `\r` mean a line feed, a tab and a carriage return, `\s` and `\\` a backslash, and
//! `\xHH` a byte: `\x20` is a space inside a word. Two spaces have an empty word between them.
#![tactic(auto)]

mod crashes;
mod disk;
mod file;
mod guarded;
mod histories;
mod images;
mod list;
mod names;
mod orders;
mod runs;
mod states;
mod tears;
mod world;
mod wrong;

use orders::Orders;
use probe_words::answer_lines;
use std::process::ExitCode;

fn main(rt: HostRuntime) -> ExitCode {
    answer_lines(&rt, &mut Orders::new(rt.alloc()))
}
