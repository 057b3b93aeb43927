//! Where a text departs from the one style, or from another text: a list of findings, each with its rule and its line.
#![tactic(auto)]

mod comparison;
mod finding;
mod findings;
mod lines;

pub use finding::{Finding, Rule};
pub use findings::{check, check_beside};
