// Where each order goes, and what is held from one to the next.
use crate::style::styled;
use crate::{configs, forms, refusals, states, trees, words};
use conf_state::State;
use probe_words::Answers;
use std::alloc::{AllocError, Global};
use std::io;
use yaml_tree::{Text, Tree};

/// What words for the program begin with.
const PROGRAM: &str = "confstore";

/// The runtime, whose clock times a reading, and the tree and the state that were taken.
#[derive(Drop)]
pub(crate) struct Held<'r> {
    rt: &'r HostRuntime,
    tree: Tree,
    state: State,
}

impl<'r> Held<'r> {
    /// Holds the empty text as the tree, and an empty state.
    pub(crate) fn new(rt: &'r HostRuntime) -> Self {
        Held {
            rt,
            tree: Tree::Text(Text::empty()),
            state: State::new(rt.alloc()),
        }
    }
}

impl Answers for Held<'_> {
    fn answer(&mut self, alloc: Global, order: &str) -> io::Result<String> {
        match order.split_once(';') {
            Some(("style", text)) => styled(self.rt, text),
            _ => Ok(answer(alloc, &mut self.tree, &mut self.state, order)?),
        }
    }
}

/// The answer to an order that needs no clock.
fn answer(
    alloc: Global,
    tree: &mut Tree,
    state: &mut State,
    order: &str,
) -> Result<String, AllocError> {
    if order.starts_with(PROGRAM) {
        return words::answer(alloc, order);
    }
    match order.split_once(';') {
        Some(("tree", order)) => trees::answer(alloc, tree, order),
        Some(("config", order)) => configs::answer(alloc, tree, order),
        Some(("form", order)) => forms::answer(alloc, order),
        Some(
            (call @ ("line" | "small" | "sentence" | "excerpt" | "remedy" | "comment"), written),
        ) => refusals::answer(alloc, call, written),
        _ => states::answer(alloc, state, order),
    }
}
