//! Events of a text, as a scanner finds them, with styles and byte ranges (YAML 1.2.2, 3.1 and 3.2.3).
//!
//! An [`Event`] borrows its value from the text where the text has it as it is. [`Events`] is a list of them that
//! grows, and the other types say in which context a scanner is and why it stopped. A [`ReadFault`] says why a whole
//! text or a tree is refused, and [`Brief`] shows it by its name.
#![tactic(auto)]

mod context;
mod display;
mod draining;
mod event;
mod fault;
mod iter;
mod list;
mod parts;
mod read_fault;
mod rest;

pub use context::{BlockContext, FlowContext};
pub use event::{Event, EventRef, Span, Style};
pub use fault::{ScanFault, Why};
pub use iter::{EventIntoIter, EventIter};
pub use list::Events;
pub use read_fault::{Brief, ReadFault};
