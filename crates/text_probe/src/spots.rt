// Numbers, and where a node is looked for and how.
use yaml_events::{BlockContext, FlowContext};

/// The number that a word is.
pub(crate) fn number_of(word: &str) -> Option<usize> {
    word.parse::<usize>().ok()
}

/// Where a flow node is looked for: at a place, with lines of `n` spaces or more, and in a context.
#[derive(Clone, Copy)]
pub(crate) struct FlowSpot {
    pub(crate) at: usize,
    pub(crate) n: u64,
    pub(crate) context: FlowContext,
}

impl FlowSpot {
    /// The spot that three words give.
    pub(crate) fn of(words: &str) -> Option<FlowSpot> {
        let (at, words) = words.split_once(';')?;
        let (n, context) = words.split_once(';')?;
        Some(FlowSpot {
            at: number_of(at)?,
            n: n.parse::<u64>().ok()?,
            context: flow_context(context)?,
        })
    }
}

/// The context that a word names.
pub(crate) fn flow_context(word: &str) -> Option<FlowContext> {
    match word {
        "Outer" => Some(FlowContext::Outer),
        "Inner" => Some(FlowContext::Inner),
        "BlockKey" => Some(FlowContext::BlockKey),
        "FlowKey" => Some(FlowContext::FlowKey),
        _ => None,
    }
}

/// Where a block node is looked for: at a place, below an indentation of `n`, and in a context.
#[derive(Clone, Copy)]
pub(crate) struct BlockSpot {
    pub(crate) at: usize,
    pub(crate) n: i64,
    pub(crate) context: BlockContext,
}

impl BlockSpot {
    /// The spot that three words give.
    pub(crate) fn of(words: &str) -> Option<BlockSpot> {
        let (words, context) = words.rsplit_once(';')?;
        BlockSpot::with(words, block_context(context)?)
    }

    /// The spot that two words give, in a context.
    pub(crate) fn with(words: &str, context: BlockContext) -> Option<BlockSpot> {
        let (at, n) = words.split_once(';')?;
        Some(BlockSpot {
            at: number_of(at)?,
            n: n.parse::<i64>().ok()?,
            context,
        })
    }
}

/// The context that a word names.
fn block_context(word: &str) -> Option<BlockContext> {
    match word {
        "Bin" => Some(BlockContext::Bin),
        "Bout" => Some(BlockContext::Bout),
        _ => None,
    }
}
