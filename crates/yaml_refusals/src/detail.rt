// What is known of a fault besides its name and place.
use crate::hint::Hint;
use yaml_docs::Place;

/// What is known of a fault besides its name and place.
#[derive(Debug, Drop)]
pub enum Detail {
    /// Nothing.
    None,
    /// Of [`ReadFault::TooLong`](yaml_events::ReadFault::TooLong), and of
    /// [`ReadFault::LargeInStyle`](yaml_events::ReadFault::LargeInStyle) in the one style: how many bytes there are,
    /// and how many there may be.
    Bytes { found: u64, limit: u64 },
    /// Of [`ReadFault::TooDeep`](yaml_events::ReadFault::TooDeep): how deep a node may be. The place is that of the
    /// first one that is deeper.
    Depth { limit: u64 },
    /// Of [`ReadFault::Documents`](yaml_events::ReadFault::Documents): how many documents the text has. The place is
    /// that of the second one, or where the text begins if it has none.
    Documents { count: u64 },
    /// Of [`ReadFault::KeyTwice`](yaml_events::ReadFault::KeyTwice): the key, and where it is first. The place is that
    /// of the second one.
    Key { name: String, first: Place },
    /// What the text at the place looks like.
    Hint(Hint),
}
