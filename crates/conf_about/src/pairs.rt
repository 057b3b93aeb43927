// The pairs of an about, one after another.
ghost use Rattle.std.specs.Prelude.{◌≡◌, []};
ghost use Rattle.std.specs.Iterator.{YieldsFirstBy, item_count};
ghost use Rattle.conf_about.specs.Prelude.{chars, members_of};
ghost use Rattle.conf_about.specs.Abouts.{ArePairs, pairs_in};

use std::marker::Model;
use yaml_data::{Text, Tree};

/// The pairs of an [`About`](crate::About), in order: each is a key and its text. Contracts see those that are left.
#[derive(Drop)]
pub struct Pairs<'a> {
    rest: &'a [(Text, Tree)],
}

impl<'a> Model for Pairs<'a> {
    ghost use Rattle.std.specs.Prelude.{ℕ, List};
    ghost use Rattle.conf_about.specs.Prelude.{members_of};
    ghost use Rattle.conf_about.specs.Abouts.{ArePairs, pairs_in};

    ghost Value = { List (List ℕ × List ℕ) };

    ghost view = { λ pairs. pairs_in (members_of pairs.rest.now) };

    ghost invariant = { λ pairs. ArePairs (members_of pairs.rest.now) };
}

impl<'a> Pairs<'a> {
    /// The pairs of a mapping, whose values are texts.
    pub(crate) fn of(pairs: &'a [(Text, Tree)]) -> Pairs<'a>
        requires { ArePairs (members_of pairs.now) }
        ensures { result ≡ pairs_in (members_of pairs.now) }
    {
        Pairs { rest: pairs }
    }

    /// No pair.
    pub(crate) fn none() -> Pairs<'a>
        ensures { result ≡ [] }
    {
        Pairs { rest: &[] }
    }
}

impl<'a> Iterator for Pairs<'a> {
    type Item = (&'a str, &'a str);

    ghost next_gives = { YieldsFirstBy (λ pair. (chars pair.0.now, chars pair.1.now)) (λ left. left) };

    ghost remaining = { item_count (λ left. left) };

    fn next(&mut self) -> Option<(&'a str, &'a str)> {
        let ((key, value), rest) = self.rest.split_first()?;
        self.rest = rest;
        match value {
            Tree::Text(text) => Some((key.as_str(), text.as_str())),
            Tree::Seq(_) => unreachable!(),
            Tree::Map(_) => unreachable!(),
        }
    }
}
