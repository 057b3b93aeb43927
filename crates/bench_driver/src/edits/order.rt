// What is asked of edits.

/// What is edited.
#[derive(Clone, Copy)]
pub(crate) enum Target {
    /// A tree, by pointers into it.
    Tree,
    /// A configuration of a state, by commands.
    State,
}

/// The tree that is edited.
#[derive(Clone, Copy)]
pub(crate) enum Shape {
    /// One mapping of so many pairs.
    Wide { pairs: u32 },
    /// Mappings in mappings, so many with the text in the last.
    Deep { depth: u32 },
}

/// What is asked: `rounds` times a pair is set at the end of the tree and deleted again.
#[derive(Clone, Copy)]
pub(crate) struct Order {
    pub(crate) target: Target,
    pub(crate) shape: Shape,
    pub(crate) rounds: u32,
}

impl Order {
    /// What the words say: `tree` or `state`, `wide` or `deep`, a size and a number of rounds. Other words are no
    /// order.
    pub(crate) fn of(words: &[String]) -> Option<Order> {
        let [target, shape, size, rounds] = words else {
            return None;
        };
        let target = match target.as_str() {
            "tree" => Target::Tree,
            "state" => Target::State,
            _ => return None,
        };
        let size = size.parse::<u32>().ok()?;
        let shape = match shape.as_str() {
            "wide" => Shape::Wide { pairs: size },
            "deep" => Shape::Deep { depth: size },
            _ => return None,
        };
        let rounds = rounds.parse::<u32>().ok()?;
        Some(Order {
            target,
            shape,
            rounds,
        })
    }

    /// How many edits that is.
    pub(crate) fn edits(&self) -> u64 {
        2 * u64::from(self.rounds)
    }
}
