//! Who, when and why of a command, as a value of its own.
//!
//! An [`About`] is a mapping of texts within small limits, in the order in which they were given. Usual keys are `by`,
//! `when` and `why`. It is made of a tree ([`About::of`]), or of words `KEY=TEXT` ([`About::of_words`]), and may get
//! further pairs ([`About::add`]). An [`AboutFault`] says why there is none. The law [`abouts_are_read_back`] says that
//! its text in the one style is read back.
#![tactic(auto)]

mod about;
mod adding;
mod fault;
mod finding;
mod laws;
mod pairs;
#[cfg(test)]
mod tests;
mod words;

pub use about::About;
pub use fault::AboutFault;
pub use laws::{abouts_are_read_back, abouts_have_no_fault};
pub use pairs::Pairs;
