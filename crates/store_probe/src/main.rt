//! Answers orders on a store over a disk in memory, so that the gate can compare the answers with expected ones. Each
//! line of standard input is an order, a word and what belongs to it, with `;` between them. It is answered in one
//! line. A line that begins with `#` is printed as it is. The program ends with 0, or with 1 if reading or
//! printing failed.
//!
//! On the folder (an order closes the store first, if one is open):
//!
//! - `folder`: a new folder without a file. `folder;TEXT`: one with this `store.yaml`, and `folder;TEXT;TEXT`: one with
//!   this `next.yaml` too. The answer is the length of each file.
//! - `noted;TEXT`: the same as `folder;TEXT`, where it is noted that several appends may have waited for one sync.
//! - `open`: opens it. The answer is how many commands were found and how many bytes dropped, or why it is refused.
//!   `open;FUSE;CALLS` does so over a disk that lets so many calls pass. Then all fail (`stop`), or one fails, which
//!   has no effect (`undone`) or has it (`done`).
//! - `create;TEXT`: makes a store of the state that this text means as a `store.yaml`. The answer is `made`, or why
//!   none is made, or why the text means nothing. `create;FUSE;CALLS;TEXT` does so over such a disk.
//! - `file` and `next`: the length of `store.yaml` or of `next.yaml`, and its text if it has at most 1,000 bytes.
//! - `image;STAGE`: takes what a crash leaves of this stage if it keeps no pending byte. `worn;STAGE;FIRST;COUNT`: if
//!   it keeps all those of `store.yaml`, with so many zeros from this one on.
//!
//! On the open store:
//!
//! - `import;NAME;TEXT`, `set;NAME;PATH;TREE` and `delete;NAME;PATH`: the count after it, or why it is refused.
//! - `batch;EDIT;EDIT;..`: the same of a batch of edits. An `EDIT` is such an order with `|` in place of each `;`.
//! - `submit;CLIENT;` before such a command: submits it for the client of this number, without a sync. The answer is
//!   the same.
//! - `flush`: syncs what was submitted. The answer is `done`, or why it is refused.
//! - `begin`: begins a checkpoint in slices. The answer is `done`, or why it is refused; `a checkpoint runs`, and no
//!   call, if one runs.
//! - `slice`: writes the next slice. The answer is how many bytes are `left`, or `done`, or why it is refused; `no
//!   checkpoint runs`, and no call, if none runs. `slices` writes all that are left: how many there were, or why one
//!   was refused.
//! - `running`: whether a checkpoint runs.
//! - `checkpoint`, `count`, `names`, `export;NAME`, `get;NAME;PATH` and `reopen`: the call of this name, the last one
//!   for whether the store has to be opened again.
//! - `round;TEXT;TEXT;..`: a round of these pieces. The answer is how many answers there are and their text, or why
//!   there are none.
//! - `session;TEXT`: a session on this input. The answer is how it ends, how many bytes of its input are not read, and
//!   its output. `grouped;TEXT`: the same in groups. `parts;BYTES;TEXT`: at most so many bytes are read at a time.
//!   `broken;TEXT` and `interrupted;TEXT`: at most 100, and after them a read fails. `room;BYTES;TEXT`: the output
//!   takes so many bytes. `copies;COUNT;TEXT`: the input is so many times the text, and the output takes nothing.
//!
//! On stores of their own, over disks in memory. Each image that a crash may leave is opened, and its store goes on.
//! Where something is not as it has to be, the answer says what.
//!
//! - `crash;CALLS`: a run of commands is cut off after so many calls of its disk. The answer is how many images a crash
//!   leaves then, and how many more after each of their openings was cut off.
//! - `waiting;CALLS`: three commands are submitted and then flushed, over a disk that stops after so many calls. The
//!   answer is how many of the images have how many of the commands. `misjudged;CALLS` takes each submit for a flush:
//!   as long as a command waits, the answer says that an image lacks it.
//! - `holes;COUNT;BYTES`: so many commands are submitted, at most three. A crash keeps all bytes of their records, with
//!   zeros in each subset of the pages of so many bytes. The answer is how many of the images have how many of the
//!   commands, and how many are damaged. `unnoted;COUNT;BYTES`: the same without the note of several appends.
//! - `lists;LENGTH`: each list of so many calls, which are submit, flush, slice (a checkpoint begins if none runs),
//!   checkpoint, apply, and close and open. It is stopped after each disk call of its last call, and what a crash
//!   leaves is cut at the ends of records and beside them. The answer is how many lists, stops and images there are.
//!   `lists again;LENGTH`: each opening is cut off too, and the answer has how many images that leaves.
//!
//! On a worked session with a store of its own:
//!
//! - `device;FUSE;CALLS`: the disk lets so many calls pass, and then fails as for `open`. The answer is how the session
//!   ends, whether the store has to be opened again, how many bytes are answered, the count that the file has then, and
//!   the count that it has if a crash keeps no pending byte. If the disk fails before the session, the answer is why
//!   the folder is not opened, and the count that the file has then.
//! - `puts;KIND;PUTS`: it is cut off when it hands out answers, after so many puts. It is the worked session
//!   (`single`), the same in groups (`grouped`), or one of two questions to a store in which three commands wait
//!   (`waiting`). The answer is how it ends, how many bytes were handed out, and how many of the images that a crash
//!   leaves then have how many commands.
//! - `each;HOW`: a session for each byte, with its number. The worked session's input ends (`input ends`) or fails
//!   (`input fails`) there, or its output takes no more (`output full`) or fails (`output fails`). `part read`: the
//!   input is a part of one command.
//!
//! A `TREE` is a text of YAML. In it and in a `TEXT`, `*COUNT*` means that many letters `x`. `\n`, `\r` and `\t` mean a
//! line feed, a carriage return and a tab, `\0` a zero byte, and `\\` and `\s` a backslash.
#![tactic(auto)]

mod calls;
mod choices;
mod cut_sessions;
mod device;
mod folders;
mod groups;
mod holes;
mod images;
mod list_calls;
mod lists;
mod orders;
mod puts;
mod rounds;
mod sessions;
mod store_commands;
mod subjects;
mod worked;
mod wrong;

use folders::Place;
use probe_words::answer_lines;
use std::process::ExitCode;

fn main(rt: HostRuntime) -> ExitCode {
    answer_lines(&rt, &mut Place::new(rt.alloc()))
}
