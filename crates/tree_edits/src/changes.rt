// What an edit is made of: plain sets and deletes.
use yaml_config::Config;

/// A `set` of a value at a pointer (RFC 6901), as tree_path performs it.
#[derive(Debug, Drop)]
pub struct PlainSet {
    pub path: String,
    pub value: Config,
}

/// What takes a value to another pointer.
#[derive(Debug, Drop)]
pub enum Move {
    /// The value is where it is to be: a `set` of it there, which changes nothing.
    Stays {
        path: String,
        value: Config,
    },
    /// A `delete` at `from`, and then a `set` of the value at `to`.
    Goes {
        from: String,
        to: String,
        value: Config,
    },
    /// There is no value: a `delete` at `from` alone, which is refused.
    Missing {
        from: String,
    },
}
