//! What the program `confstore` does, over any streams and any [`World`] of folders and files: [`perform`] does what an
//! invocation asks for, and returns the status, and [`run_program`] ends the process with it. [`Host`] is the world of
//! the system.
//!
//! The tools are there without the words, too. [`read_text`] reads a text. [`format_text`] writes it in a style: its
//! tree in the one style, with or without its comments. [`check_text`] reports where it departs from that. For the text
//! of a file that was named, [`restyle`] returns what it is in the style, [`list_changed`] writes the name if that is
//! another text, and [`check_file`] reports as `FILE:LINE: S1`. [`run_store`] performs a session of commands, and
//! [`export_text`] gives the text of one configuration. [`change_store`] makes a single change, and [`make_store`] an
//! empty store. The store may be on any disk. Each of these tells a [`Listener`] how many bytes opening dropped.
//! [`calls_hold`] says what these calls keep over any crashes.
#![tactic(auto)]

mod asking;
mod backups;
mod batch_words;
mod change_words;
mod changes;
mod config_files;
mod diff_words;
mod diffs;
mod dropped;
mod edits;
mod exports;
mod fault_names;
mod file_texts;
mod file_words;
mod findings;
mod host;
mod input;
mod keeping;
mod laws;
mod likeness;
mod listener;
mod logs;
mod outcome;
mod program;
mod read_words;
mod reading_fault;
mod reads;
mod report;
mod reporter;
mod rest;
mod sentences;
mod stores;
mod styles;
mod surveys;
mod tail;
mod texts;
mod waiting;
mod world;

pub use changes::{Action, Change, change_store, make_store};
pub use conf_conditions::ConditionFault;
pub use conf_words::{Place, Places, Span};
pub use diffs::{DiffRequest, Sameness, write_diff};
pub use edits::TreeEdit;
pub use exports::export_text;
pub use file_texts::{Restyled, check_file, list_changed, restyle};
pub use file_words::Report;
pub use host::{Host, InputFile, ReadFailure};
pub use laws::{call_holds, calls_hold};
pub use listener::{Listener, Told};
pub use program::{Status, perform, refuse_words, run_program, show_unparsed};
pub use reading_fault::ReadingFault;
pub use reads::{Presence, find_presence, write_names, write_values};
pub use stores::{Grouping, StoreToolFault, run_store};
pub use surveys::{Soundness, write_findings, write_survey};
pub use tail::{KEPT, Tail, TailReader};
pub use texts::{ToolFault, check_text, format_text, read_text};
pub use world::{Access, World};
