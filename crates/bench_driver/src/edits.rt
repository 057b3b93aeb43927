// Edits at the end of a path, made many times.
mod order;
mod rounds;
mod trees;

use crate::failed::Failed;
use order::Order;
use rounds::{length_in_style, run};

/// Makes the edits that the words of an order say, and prints how many they are and how long the tree is in the one
/// style.
pub(crate) fn perform(rt: &HostRuntime, words: &[String]) -> Result<(), Failed> {
    let Some(order) = Order::of(words) else {
        return Err(Failed::Words);
    };
    let alloc = rt.alloc();
    let length = length_in_style(alloc, &order)?;
    run(alloc, &order)?;
    println!(rt; "{} edits of a tree of {length} bytes", order.edits())?;
    Ok(())
}
