// Where the steps of a path lead, kept so that an edit need not search for them again.
ghost use Rattle.std.specs.Prelude.{◌≡◌, ◌⊎◌, true, Err, IfOk, IfErr, IfSome};
ghost use Rattle.tree_path.specs.Prelude.{chars, distinct, tree_of};
ghost use Rattle.tree_path.specs.Paths.{at, key_in};
ghost use Rattle.tree_path.specs.Steps.{ArePlaces, KnowsLast, KnowsStep, parents_of, step_place};
ghost use Rattle.tree_path.specs.Tables.{Indexes};

use crate::key_index::{KeyIndex, table_at};
use crate::place::{self, Miss, key_in, key_in_by, step_place_by};
use json_pointer::{Path, PathFault};
use std::alloc::Global;
use yaml_data::Tree;

/// Where the steps of a path lead in a tree.
#[derive(Drop)]
pub struct StepPlaces {
    /// For each step but the last, the place of the element or the pair, from 0.
    pub parents: Vec<usize>,
    /// The place of the last step's key in its mapping, from 0; `None` if it is missing, or leads into no mapping.
    pub last: Option<usize>,
    /// How many steps lead to a wide mapping whose keys were compared one by one, the last such; `None` if there was
    /// none.
    pub walked: Option<usize>,
}

impl StepPlaces {
    /// Finds the places of a path's steps in a tree in whose mappings no key comes twice. Each key is looked up where
    /// the index knows the keys of its mapping, and else compared with those of its mapping once.
    ///
    /// # Errors
    ///
    /// The fault of the first step before the last that leads nowhere, as [`at`](crate::at) says it;
    /// [`PathFault::OutOfMemory`] may come at any point.
    pub fn find(
        alloc: Global,
        tree: &Tree,
        path: &Path,
        index: Option<&KeyIndex>,
    ) -> Result<StepPlaces, PathFault>
        requires distinct { distinct (tree_of tree.now) ≡ true }
        requires index { IfSome index (λ index. Indexes index.now (tree_of tree.now)) }
        ensures ok { IfOk result (λ places. ArePlaces places (tree_of tree.now) path.now) }
        ensures refused { IfErr result (λ fault. (fault ≡ PathFault.OutOfMemory)
            ⊎ (at (tree_of tree.now) (parents_of path.now) ≡ Err fault)) }
    {
        let Some((last, tokens)) = path.tokens().split_last() else {
            return Ok(StepPlaces {
                parents: Vec::new(alloc),
                last: None,
                walked: None,
            });
        };
        let mut parents = Vec::with_capacity(alloc, tokens.len())?;
        let mut node = tree;
        let mut walked = None;
        for (passed, token) in tokens.iter().enumerate() {
            let table = table_at(index, &tokens[..passed]);
            let place = match step_place_by(table, node, token.as_str(), passed, &mut walked) {
                Ok(place) => place,
                Err(miss) => return Err(miss.at_step(passed + 1)),
            };
            parents.push(place)?;
            node = place::child_in(node, place);
        }
        let table = table_at(index, tokens);
        let last = key_in_by(table, node, last.as_str(), tokens.len(), &mut walked);
        Ok(StepPlaces {
            parents,
            last,
            walked,
        })
    }
}

/// What is known of the places to which the steps of a path lead.
#[derive(Clone, Copy)]
pub enum Known<'p> {
    /// All of them.
    Found(&'p StepPlaces),
    /// They were not searched for.
    Nothing,
}

impl Known<'_> {
    /// The place of a step before the last, after so many others: the known one, or what a search finds.
    pub fn step_place(self, passed: usize, tree: &Tree, token: &str) -> Result<usize, Miss>
        requires { KnowsStep self passed (tree_of tree.now) (chars token.now) }
        ensures { result ≡ step_place (tree_of tree.now) (chars token.now) }
    {
        match self {
            Known::Found(places) => Ok(places.parents[passed]),
            Known::Nothing => place::step_place(tree, token),
        }
    }

    /// The place of the last step's key: the known one, or what a search finds.
    pub fn key_place(self, tree: &Tree, key: &str) -> Option<usize>
        requires { KnowsLast self (key_in (tree_of tree.now) (chars key.now)) }
        ensures { result ≡ key_in (tree_of tree.now) (chars key.now) }
    {
        match self {
            Known::Found(places) => places.last,
            Known::Nothing => key_in(tree, key),
        }
    }
}
