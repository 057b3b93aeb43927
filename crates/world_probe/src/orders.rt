// Orders on lists, and their answers.
use crate::crashes::crash;
use crate::list::{Asked, Given, List};
use crate::names::names;
use probe_words::{Answers, Zeros, bytes_of, no_order, text_of, words_of, wrong_escape};
use std::alloc::{AllocError, Global};
use std::io;

/// What stands between the words of a run and its standard input.
const INPUT: &str = " < ";

/// What is answered if a folder or a file is given.
const GIVEN: &str = "given";

/// What answers the orders: the list that was begun last.
#[derive(Drop)]
pub(crate) struct Orders {
    list: List,
}

impl Orders {
    /// An empty list.
    pub(crate) fn new(alloc: Global) -> Orders {
        Orders {
            list: List::new(alloc),
        }
    }
}

impl Answers for Orders {
    fn answer(&mut self, alloc: Global, order: &str) -> io::Result<String> {
        Ok(answer(alloc, &mut self.list, order)?)
    }
}

/// The answer to an order.
fn answer(alloc: Global, list: &mut List, order: &str) -> Result<String, AllocError> {
    match order.split_once(' ').unwrap_or((order, "")) {
        ("list", "") => begin(alloc, list),
        ("folder", path) => give_folder(alloc, list, path),
        ("file", written) => give_file(alloc, list, written),
        ("confstore", _) => run_next(alloc, list, order),
        ("crash", "") => crash(alloc, list, Zeros::Each),
        ("crash", "ends") => crash(alloc, list, Zeros::Ends),
        ("names", "") => names(alloc),
        _ => no_order(alloc),
    }
}

/// Begins a list.
fn begin(alloc: Global, list: &mut List) -> Result<String, AllocError> {
    *list = List::new(alloc);
    String::from_str(alloc, "begun")
}

/// Adds a folder, which is there from the beginning.
fn give_folder(alloc: Global, list: &mut List, path: &str) -> Result<String, AllocError> {
    let path = String::from_str(alloc, path)?;
    list.given.push(Given::Folder { path })?;
    String::from_str(alloc, GIVEN)
}

/// Adds a file, which is there from the beginning.
fn give_file(alloc: Global, list: &mut List, written: &str) -> Result<String, AllocError> {
    let (path, text) = written.split_once(' ').unwrap_or((written, ""));
    let Some(bytes) = bytes_of(alloc, text)? else {
        return wrong_escape(alloc);
    };
    let path = String::from_str(alloc, path)?;
    list.given.push(Given::File { path, bytes })?;
    String::from_str(alloc, GIVEN)
}

/// Adds a run, and answers what it leaves.
fn run_next(alloc: Global, list: &mut List, order: &str) -> Result<String, AllocError> {
    let (words, input) = order.split_once(INPUT).unwrap_or((order, ""));
    let (Some(words), Some(input)) = (words_of(alloc, words)?, text_of(alloc, input)?) else {
        return wrong_escape(alloc);
    };
    list.push(Asked { words, input })?;
    match &list.last {
        Some(last) => list.world_after(alloc, last, usize::MAX)?.1.line(alloc),
        None => no_order(alloc),
    }
}
