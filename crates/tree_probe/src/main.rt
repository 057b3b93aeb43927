//! Answers orders on trees, on texts that are trees, on states, and on words for the program. Each line of standard
//! input is an order: a word and what belongs to it, with `;` between them. The name of a group comes first, where an
//! order is in one. It is answered in one line.
//!
//! - `style;TEXT`: how many nanoseconds reading the text's tree took, and the tree in the one style.
//!   `checks/fuzz_texts.py` asks for it too. The text has escapes and no runs.
//!
//! The group `tree`, trees and the texts that are trees. In a `TEXT`, `\n`, `\r` and `\t` mean a line feed, a carriage
//! return and a tab; a `TREE` and a `VALUE` are texts of YAML without escapes.
//!
//! - `emit;TREE`: the length of the tree's text in the one style, and the text. `format;TEXT` answers the same, and
//!   builds no tree; `keep;TEXT` keeps the comments, and its text has the escapes and the runs of `probe_words`.
//! - `read;DEPTH;TEXT`: the length of the tree's text, and the tree's depth, if it is at most so deep.
//! - `check;TEXT`: where the text departs from the one style, as rules with their lines.
//! - `value;TEXT` and `key;TEXT`: the style of a text as a value or as a key.
//! - `path;TEXT`: how many steps the path has.
//! - `tree;TREE`: takes the tree, and shows it. `at;PATH` shows what is at a path of it.
//! - `set;PATH;VALUE` and `delete;PATH` edit the tree that was taken. They show the value that comes back, if one does,
//!   and the tree.
//! - `set_len;TREE;PATH;VALUE` and `delete_len;TREE;PATH`: the length after an edit of the tree.
//!
//! The group `config`, what a configuration is: its limits, copies and sizes, and why texts are none. It works on the
//! same tree.
//!
//! - `tree;TREE`: takes the tree of a text of YAML, and shows it.
//! - `text;TEXT` takes the text as the tree, and `pairs;KEY;VALUE;..` a mapping of texts. `sequences;COUNT` puts the
//!   tree that was taken inside so many sequences, and `nested;COUNT` inside as many sequences and mappings by turns.
//! - `deeper;DEPTH`: whether the tree is deeper. `length;MOST`: its length in the one style, if that is not more.
//! - `new`: the length and the depth of the configuration that the tree is, and the depth of its tree. `copy`: the
//!   lengths of a copy and of a copy of that, and the second one's depth, its tree's depth and its tree. `sizes;KEY`:
//!   the sizes of the tree as an element and as a value, and of the key.
//! - `empty`: the length and the depth of the empty configuration, its tree, and the empty text.
//! - `text_copies;TEXT`: the length of a text, the text, a copy, the string that the text becomes, the text that the
//!   string becomes, and the copy and that text once more.
//! - `fault;BYTES`: why the bytes are refused. `sentence;BYTES` says it in a sentence, and by its name.
//!   `check_fault;BYTES`: why they have no findings.
//!
//! The group `form`, other forms of the tree of a text of YAML:
//!
//! - `json;TEXT`: its JSON text. `line;TEXT` shows it with a line feed after it.
//! - `plain;TEXT`: shows its plain form.
//! - `keys;TEXT`: shows the keys of a mapping, or the indexes of a sequence, as lines.
//! - `texts;TEXT;..`: the JSON text of a sequence of texts. `texts;` has one, the empty text.
//!
//! Refused texts: where they are at fault, and why. A text that is read is answered by `read`.
//!
//! - `line;BYTES`: the place, and the refusal in a few words, as an editor reads them. `small;BYTES` does so within
//!   small limits: 40 bytes, a depth of 3, and 48 bytes in the one style.
//! - `sentence;BYTES`: the refusal in a sentence.
//! - `excerpt;BYTES`: the line of the text and the mark below it, as `Debug` shows a text.
//! - `remedy;BYTES`: what to do.
//! - `comment;BYTES`: the place of the first comment, or `none`.
//!
//! A state: commands, and the records and bases that are written and read. `checks/refuse_state_allocations.py` asks
//! for some of these too. In a `TEXT` and a `TREE` `\n` means a line feed, and `*COUNT` at the end that many letters
//! `x`; the `TEXT` of a name has neither.
//!
//! - `name;TEXT`: whether the text is a name.
//! - `import;NAME;TREE`, `set;NAME;PATH;TREE` and `delete;NAME;PATH`: the command is performed. The answer is the count
//!   after it, or why it is refused. `unfit;` before it says that the journal has no room for its record.
//! - `record;NUMBER;` before a command: the length of its record with this number, and the record.
//! - `perform;TEXT`: the command of a record is performed.
//! - `read;TEXT`: the record or the base that the text is read as, written again, after its length: a base in the third
//!   format, if the text begins as such a base is written, else in the second. `read_bytes;BYTES` reads bytes.
//! - `open;TEXT`: the state of a base is taken; `new`: an empty state.
//! - `show`: the count, and each configuration in the one style, in order. `length`: the bytes of the base text, as the
//!   state keeps them. `base`: the length of the base text in the second format, and the base text; `third`: the same
//!   in the third.
//! - `fault;NAME`: the message of a fault.
//!
//! `confstore WORD..`: what these words ask the program for. The answer is the invocation as `Debug` shows it, or
//! `shown: ` and the first line of what is shown, or `wrong: ` and the first line of what is said.
//!
//! What is refused is answered with the fault. `probe_words` says how words, `BYTES`, and a text with escapes are
//! written after `style` and in the groups `config` and `form`, what a heading is, and how the program ends.
#![tactic(auto)]

mod builds;
mod commands;
mod configs;
mod edits;
mod faults;
mod forms;
mod orders;
mod refusals;
mod states;
mod store_faults;
mod style;
mod texts;
mod trees;
mod words;

use orders::Held;
use probe_words::answer_lines;
use std::process::ExitCode;

fn main(rt: HostRuntime) -> ExitCode {
    answer_lines(&rt, &mut Held::new(&rt))
}
