// The names of a state that are still to come.
ghost use Rattle.std.specs.Prelude.{◌≡◌, ◌∷◌, [], MatchOption, option_map};
ghost use Rattle.conf_diff.specs.Prelude.{chars, names_of, same_text, tree_of};
ghost use Rattle.conf_diff.specs.NamedEdits.{after_next, is_next, names_left, next_tree};

use conf_state::{Names, State};
use yaml_config::Config;

/// The names of a state from one on, in order.
#[derive(Drop)]
pub(crate) struct Left<'s> {
    /// The first of them; `None` if there is none.
    next: Option<&'s str>,
    /// Those after it.
    names: Names<'s>,
}

impl<'s> Left<'s> {
    /// All names.
    pub(crate) fn of(state: &'s State) -> Left<'s>
        ensures { names_left result ≡ names_of state.now.configs }
    {
        let mut names = state.names();
        let next = names.next();
        Left { next, names }
    }

    /// The configuration under a name in a state, if the name is the first that is left. It is left no longer then.
    pub(crate) fn next_config<'v>(&mut self, state: &'v State, name: &str) -> Option<&'v Config>
        ensures value { option_map (λ config. tree_of config.now) result
            ≡ next_tree state.now.configs (chars name.now) (names_left self.old) }
        ensures left { names_left self.new ≡ after_next (chars name.now) (names_left self.old) }
    {
        if self.pass(name) {
            state.get(name)
        } else {
            None
        }
    }

    /// Passes a name if it is the first that is left, and says whether it is.
    fn pass(&mut self, name: &str) -> bool
        ensures is_next { result ≡ is_next (chars name.now) (names_left self.old) }
        ensures left { names_left self.new ≡ after_next (chars name.now) (names_left self.old) }
    {
        let Some(next) = self.next else {
            return false;
        };
        if !is_same(name, next) {
            return false;
        }
        self.next = self.names.next();
        true
    }

    /// Takes the first name that is left.
    pub(crate) fn take(&mut self) -> Option<&'s str>
        ensures { MatchOption result ((names_left self.old ≡ []) × (names_left self.new ≡ []))
            (λ name. names_left self.old ≡ chars name.now ∷ names_left self.new) }
    {
        let name = self.next?;
        self.next = self.names.next();
        Some(name)
    }
}

/// Whether two names are the same.
fn is_same(name: &str, other: &str) -> bool
    ensures { result ≡ same_text (chars name.now) (chars other.now) }
{
    other == name
}
