// Files that are read.
mod order;
mod rounds;

use crate::failed::Failed;
use order::Order;

/// Does what the words of an order say.
pub(crate) fn perform(rt: &HostRuntime, words: &[String]) -> Result<(), Failed> {
    let Some(order) = Order::of(words) else {
        return Err(Failed::Words);
    };
    rounds::read_rounds(rt, order.what, order.file, order.rounds)?;
    Ok(())
}
