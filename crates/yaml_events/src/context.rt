// The context of a node.

/// The context of a flow node (YAML 1.2.2, 4.2): it says which characters end a plain scalar, and whether the node
/// may run over lines.
#[derive(Clone, Copy, Debug, PartialEq, Eq)]
pub enum FlowContext {
    /// Outside of brackets (`flow-out`).
    Outer,
    /// Between brackets (`flow-in`).
    Inner,
    /// A key of a block mapping, on one line (`block-key`).
    BlockKey,
    /// A key of a flow mapping, on one line (`flow-key`).
    FlowKey,
}

/// The context of a block node (YAML 1.2.2, 4.2 and 8.2): it says the least indentation of a sequence in it.
#[derive(Clone, Copy, Debug, PartialEq, Eq)]
pub enum BlockContext {
    /// In a sequence, or at the top of a document (`block-in`): a sequence is deeper than what is around it.
    Bin,
    /// In a mapping (`block-out`): a sequence may be as deep as its key.
    Bout,
}
