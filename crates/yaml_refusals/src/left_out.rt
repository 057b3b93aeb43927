// What YAML has and a configuration doesn't.
use std::fmt;

/// What YAML has and a configuration doesn't. `confstorectl import --from yaml` reads texts with it.
#[derive(Clone, Copy, Debug, PartialEq, Eq)]
pub enum LeftOut {
    /// An alias, as `*name` (7.1).
    Alias,
    /// A merge key (`<<`), whose value is an alias.
    MergeKey,
    /// An anchor, as `&name` (6.9.2).
    Anchor,
    /// Two anchors of one node, which YAML doesn't have either.
    AnchorTwice,
    /// A tag, as `!name` (6.9.1).
    Tag,
    /// Two tags of one node, which YAML doesn't have either.
    TagTwice,
}

/// That the profile has none, and what would mend it.
impl fmt::Display for LeftOut {
    fn fmt<W: fmt::Write>(&self, f: &mut fmt::Formatter<W>) -> fmt::Result {
        let words = match self {
            LeftOut::Alias =>
                "the profile has no aliases: `confstorectl import --from yaml` expands them, or quote the text",
            LeftOut::MergeKey =>
                "the profile has no merge keys: `confstorectl import --from yaml` expands them",
            LeftOut::Anchor =>
                "the profile has no anchors: `confstorectl import --from yaml` expands them, or quote the text",
            LeftOut::AnchorTwice =>
                "two anchors at one node, and the profile has none: drop both, or quote the text",
            LeftOut::Tag =>
                "the profile has no tags: `confstorectl import --from yaml` drops them, or quote the text",
            LeftOut::TagTwice =>
                "two tags at one node, and the profile has none: drop both, or quote the text",
        };
        f.write_str(words)
    }
}
