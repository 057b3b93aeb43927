// What is asked of reading.

/// What a text is read to.
#[derive(Clone, Copy)]
pub(crate) enum What {
    Events,
    Tree,
}

/// What is asked: a file is read so many times.
#[derive(Clone, Copy)]
pub(crate) struct Order<'a> {
    pub(crate) what: What,
    pub(crate) file: &'a str,
    pub(crate) rounds: u32,
}

impl<'a> Order<'a> {
    /// What the words say.
    pub(crate) fn of(words: &'a [String]) -> Option<Order<'a>> {
        let [what, file, rounds] = words else {
            return None;
        };
        Some(Order {
            what: What::of(what)?,
            file: file.as_str(),
            rounds: rounds.parse::<u32>().ok()?,
        })
    }
}

impl What {
    fn of(word: &str) -> Option<What> {
        match word {
            "events" => Some(What::Events),
            "tree" => Some(What::Tree),
            _ => None,
        }
    }
}
