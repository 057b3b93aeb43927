//! Answers orders on texts: on their characters, on what is at their places, on lists of events, and on their scalars,
//! nodes and streams. Each line of standard input is an order, a word and what belongs to it, with `;` between them. It
//! is answered in one line.
//!
//! - `CALL;AT;TEXT`: what the call of `yaml_scan` or `yaml_chars` returns at a place. `is_marker_of` is
//!   `is_directives_end` or `is_document_end`. `stands_at` and `sign_at` take the sign before the text, `run_end` its
//!   class, `has_break` two places, and `at_most_chars` the most characters and two places.
//! - `CLASS;TEXT`: the characters of a text that are in a class, as `printable`.
//! - `line_feeds;COUNT;TEXT`: the text with so many line feeds after it.
//! - `checked;BYTES`: the bytes as a text.
//! - `list;STEP;..`: a list of events after some steps, and then its events one by one. A step is an event
//!   without a value, `=VALUE` for a plain scalar with a borrowed value, `"VALUE` for one in double quotes with an
//!   owned value, `omitted AT`, `insert AT` for the start of a mapping, or `keep COUNT`.
//!
//! The group `node`, scalars, nodes and streams:
//!
//! - `show;TEXT`: the events of a text. `checks/cases.py` asks for it too. The text has escapes and no runs.
//! - `plain;AT;N;CONTEXT;TEXT`: the plain scalar at a place: whether its value is borrowed or owned, the value, and
//!   its end. `single` and `double` do the same. `scalar` takes any of them, and adds its style and whether it is over
//!   lines.
//! - `gap_end` and `safe_at`, with the same words: what the call returns. A gap's fault is given in a sentence.
//! - `is_safe;CONTEXT;TEXT`: the characters of a text that are safe in a context.
//! - `flow;AT;N;CONTEXT;TEXT` and `block;AT;N;CONTEXT;TEXT`: the end of the node at a place, how many events the list
//!   then has, and the list, which holds `+D` before. `flow_end` and `block_end` leave the list out.
//! - `header;AT;TEXT`: the header of a block scalar at a place. `lines;AT;N;TEXT`: the block scalar at a place, as a
//!   flow scalar is answered.
//! - `events;LIMIT;BYTES`: the events of a stream. `closings;BYTES`: the places after its closing lines.
//!   `cut;MOST;BYTES;BYTES`: what a cutter for at most so many bytes takes of the first and of the second part, what
//!   it holds then, and what after it was cleared. It is also cleared after a first part that closes a piece.
//!
//! What is refused is answered with the fault. Places count bytes from 0. `probe_words` says how texts and bytes are
//! written, what a heading is, and how the program ends.
#![tactic(auto)]

mod characters;
mod lists;
mod node_orders;
mod nodes;
mod numbers;
mod orders;
mod places;
mod scalars;
mod show;
mod spots;
mod streams;

use orders::Reader;
use probe_words::answer_lines;
use std::process::ExitCode;

fn main(rt: HostRuntime) -> ExitCode {
    answer_lines(&rt, &mut Reader)
}
