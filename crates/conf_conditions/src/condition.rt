// Conditions: what a caller wants to find in a store.
use yaml_config::Config;

/// What has to hold of a store's state. Names and pointers are looked at when the condition is judged.
#[derive(Debug, Drop)]
pub enum Condition {
    /// The value at a path (RFC 6901) in the configuration under a name is this tree: the same texts and keys, in the
    /// same order. The empty path means the whole configuration.
    Test {
        name: String,
        path: String,
        value: Config,
    },
    /// No configuration has the name, or nothing is at the path (RFC 6901) in it. With the empty path: no configuration
    /// has the name.
    Absent {
        name: String,
        path: String,
    },
    /// The store has accepted exactly so many commands.
    Count(u64),
}
