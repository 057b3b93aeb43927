//! Sessions: a stream of command documents, each answered by one document.
//!
//! [`run`] reads the commands, performs them on a store, and hands out the answers. Input and output may be any reader
//! and writer, and the store may be on any disk. [`SessionFault`] says why a session stops before the end of its input.
//!
//! A command that changes configurations may have an about ([`About`](conf_about::About)): who makes the change, when
//! and why. It is the value of a last key `about`. Such a command renews a store whose base is not of the third format,
//! which flushes all that waited.
//!
//! [`run_grouped`] does so in groups: it performs all commands that one read brought, syncs once for them, and then
//! hands out their answers. A group promises less than [`run`] of commands after a cut answer, and of those in hand
//! when the device fails. It can also write the checkpoints that nobody asked for, in slices between the groups
//! ([`Checkpoints`]).
//!
//! Both hand the answers to an [`AnswerSink`], which gets an answer only once no crash takes back what it tells. Each
//! writer is one.
//!
//! [`read_edits`] reads the edits that a text by itself lists.
//!
//! [`round`] performs the commands that a server has in hand from many clients, and syncs once for all of them.
#![tactic(auto)]

mod about_lines;
mod answer;
mod command_lines;
mod condition_lines;
mod conditions;
mod edits;
mod fault;
mod field_lines;
mod flow_line;
mod groups;
mod input;
mod laws;
mod part_lines;
mod parts;
mod pieces;
mod reading;
mod reply;
mod rounds;
mod said;
mod session;
mod sink;
mod unwritten;
mod words;

pub use edits::{EditsFault, read_edits};
pub use fault::SessionFault;
pub use groups::{Checkpoints, run_grouped};
pub use laws::{
    answers_acknowledge, answers_are_read, answers_are_short, answers_stand, conditions_guard,
    requests_are_answered,
};
pub use rounds::{Piece, RoundFault, round};
pub use session::{Tally, run};
pub use sink::AnswerSink;
