// Where the keys of a wide mapping are, so that an edit need not walk along it.
ghost use Rattle.std.specs.Prelude.{◌≡◌, ◌<◌, ◌⊎◌, ◌++◌, ℕ, true, List, [], ◌∷◌, Ok, Some, None, IfOk, IfSome, length};
ghost use Rattle.tree_path.specs.Prelude.{remove, chars, same_text, Members, mapping, members_of, tree_of, text_bytes};
ghost use Rattle.tree_path.specs.Prelude.{texts};
ghost use Rattle.std.specs.Cow.{cow_str_bytes};
ghost use Rattle.yaml_grammar.specs.Trees.{Tree as Meant};
ghost use Rattle.tree_path.specs.declared.key_table.KeyTable.{KeyTable};
ghost use Rattle.tree_path.specs.declared.key_index.Reach.{Reach};
ghost use Rattle.tree_path.specs.Paths.{at, set, delete};
ghost use Rattle.tree_path.specs.Steps.{ArePlaces};
ghost use Rattle.tree_path.specs.Tables.{Indexes, Lists, ListsIn, Reaches, steps_of};

use crate::edit::value_at;
use crate::key_table::KeyTable;
use crate::place::{self, WIDE};
use crate::step_places::{Known, StepPlaces};
use json_pointer::Path;
use std::alloc::{AllocError, Global};
use std::borrow::CowStr;
use yaml_data::{Text, Tree};

/// How many walks along wide mappings come before an index is made, which takes longer than a walk.
const WALKS: u32 = 4;

/// Where the keys of one wide mapping of a tree are, and which there are. An index may know nothing: before some walks
/// along wide mappings, after an edit at the mapping or above it, and where memory runs out.
#[derive(Debug, Drop)]
pub struct KeyIndex {
    /// The steps that lead to the mapping.
    steps: Vec<Text>,
    /// The keys of the mapping, if they are known.
    table: Option<KeyTable>,
    /// How many walks along wide mappings there were since the index was made.
    walks: u32,
}

/// Where an edit is made, seen from the mapping of an index.
#[derive(Clone, Copy)]
pub(crate) enum Reach {
    /// At the mapping or above it, or so that it may be found by other steps then.
    Around,
    /// At a key of the mapping.
    Key,
    /// Below a key of the mapping.
    Below,
    /// Elsewhere.
    Apart,
}

impl KeyIndex {
    /// An index that knows nothing. It takes no memory.
    pub fn new(alloc: Global) -> KeyIndex
        ensures { (t : Meant) → Indexes result t }
    {
        KeyIndex {
            steps: Vec::new(alloc),
            table: None,
            walks: 0,
        }
    }

    /// An index that knows nothing, and becomes that of a wide mapping at the first walk along one. It takes no memory.
    pub fn eager(alloc: Global) -> KeyIndex
        ensures { (t : Meant) → Indexes result t }
    {
        KeyIndex {
            walks: WALKS - 1,
            ..KeyIndex::new(alloc)
        }
    }

    /// The index of the mapping to which the steps lead.
    fn of_mapping(
        alloc: Global,
        tokens: &[CowStr<'_>],
        pairs: &[(Text, Tree)],
    ) -> Result<KeyIndex, AllocError>
        requires { 0 < length pairs.now }
        ensures { IfOk result (λ index. (t : Meant)
            → at t (texts tokens.now) ≡ Ok (mapping (members_of pairs.now)) → Indexes index t) }
    {
        let table = KeyTable::of_pairs(alloc, pairs)?;
        let steps = texts_of(alloc, tokens)?;
        Ok(KeyIndex {
            steps,
            table: Some(table),
            walks: 0,
        })
    }

    /// What is known of the keys of the value to which the tokens lead.
    pub(crate) fn table_at(&self, tokens: &[CowStr<'_>]) -> Option<&KeyTable>
        ensures { IfSome result (λ table. (t u : Meant) → Indexes self.now t
            → at t (texts tokens.now) ≡ Ok u → ListsIn table.now u) }
    {
        if !are_steps(&self.steps, tokens) {
            return None;
        }
        self.table.as_ref()
    }

    /// Counts a walk along a wide mapping, from a search for the steps of a path. After some walks the index becomes
    /// that of this mapping, if there is memory.
    pub fn count_walk(&mut self, alloc: Global, tree: &Tree, path: &Path, places: &StepPlaces)
        ensures { Indexes self.old (tree_of tree.now) → Indexes self.new (tree_of tree.now) }
    {
        let Some(passed) = places.walked else {
            return;
        };
        let Some(steps) = path.tokens().get(..passed) else {
            return;
        };
        self.walks = self.walks.saturating_add(1);
        if self.walks < WALKS {
            return;
        }
        if let Some(index) = index_of(alloc, tree, steps) {
            *self = index;
        }
    }

    /// Takes note of a value that is set at a path, where the places of the path's steps are these. The tree is that
    /// before the edit.
    pub fn note_set(&mut self, tree: &Tree, path: &Path, places: &StepPlaces)
        requires steps { 0 < length path.now }
        requires places { ArePlaces places.now (tree_of tree.now) path.now }
        requires index { Indexes self.old (tree_of tree.now) }
        ensures { (v u : Meant) → set (tree_of tree.now) path.now v ≡ Ok u → Indexes self.new u }
    {
        let tokens = path.tokens();
        match self.reach(tree, tokens, places) {
            Reach::Around => self.forget(),
            Reach::Key => {
                if places.last.is_some() {
                    return;
                }
                self.note_new(last_of(tokens));
            }
            Reach::Below => {}
            Reach::Apart => {}
        }
    }

    /// Takes note of a value that is removed at a path, where the places of the path's steps are these. The tree is
    /// that before the edit.
    pub fn note_delete(&mut self, tree: &Tree, path: &Path, places: &StepPlaces)
        requires steps { 0 < length path.now }
        requires places { ArePlaces places.now (tree_of tree.now) path.now }
        requires index { Indexes self.old (tree_of tree.now) }
        ensures { (u : Meant) → delete (tree_of tree.now) path.now ≡ Ok u → Indexes self.new u }
    {
        let tokens = path.tokens();
        match self.reach(tree, tokens, places) {
            Reach::Around => self.forget(),
            Reach::Key => {
                if let Some(place) = places.last {
                    self.note_removed(place, last_of(tokens));
                }
            }
            Reach::Below => {}
            Reach::Apart => {}
        }
    }

    /// Takes note of a new last key. An index whose table is worn then, or for which memory runs out, knows nothing.
    fn note_new(&mut self, key: &str)
        requires { IfSome self.old.table (λ table. 0 < length table.newest.items) }
        ensures steps { self.new.steps ≡ self.old.steps }
        ensures table { IfSome self.new.table (λ new. (old : KeyTable) × (self.old.table ≡ Some old)
            × ((keys : List (List ℕ)) → Lists old keys → Lists new (keys ++ chars key.now ∷ []))) }
    {
        let Some(mut table) = self.table.take() else {
            return;
        };
        if table.add(key).is_ok() && !table.is_worn() {
            self.table = Some(table);
        }
    }

    /// Takes note of a removed key, which was at this place. An index for which memory runs out knows nothing.
    fn note_removed(&mut self, place: usize, key: &str)
        requires { IfSome self.old.table (λ table. 0 < length table.newest.items) }
        ensures steps { self.new.steps ≡ self.old.steps }
        ensures table { IfSome self.new.table (λ new. (old : KeyTable) × (self.old.table ≡ Some old)
            × ((keys : List (List ℕ)) → Lists old keys → place < length keys
            → Lists new (remove keys place))) }
    {
        let Some(mut table) = self.table.take() else {
            return;
        };
        if table.remove(place, key).is_ok() {
            self.table = Some(table);
        }
    }

    /// Forgets the keys.
    fn forget(&mut self)
        ensures { self.new.table ≡ None }
    {
        self.table = None;
    }

    /// Where an edit at a path is made, seen from the mapping.
    fn reach(&self, tree: &Tree, tokens: &[CowStr<'_>], places: &StepPlaces) -> Reach
        requires some { 0 < length tokens.now }
        requires places { ArePlaces places.now (tree_of tree.now) (texts tokens.now) }
        ensures { Reaches result (tree_of tree.now) (steps_of self.now.steps.items)
            (texts tokens.now) }
    {
        let known = Known::Found(places);
        let mut node = tree;
        for (passed, step) in self.steps.iter().enumerate() {
            let token = &tokens[passed];
            if !is_same(step, token) {
                return reach_beside(node);
            }
            if passed + 1 == tokens.len() {
                return Reach::Around;
            }
            match known.step_place(passed, node, token.as_str()) {
                Ok(place) => node = place::child_in(node, place),
                Err(_) => return Reach::Around,
            }
        }
        if tokens.len() - 1 == self.steps.len() {
            return Reach::Key;
        }
        Reach::Below
    }
}

/// The index of the wide mapping to which the tokens lead; `None` if they lead to none, or memory runs out.
fn index_of(alloc: Global, tree: &Tree, tokens: &[CowStr<'_>]) -> Option<KeyIndex>
    ensures { IfSome result (λ index. Indexes index (tree_of tree.now)) }
{
    let Ok(Tree::Map(pairs)) = value_at(tree, tokens) else {
        return None;
    };
    if pairs.len() < WIDE {
        return None;
    }
    match KeyIndex::of_mapping(alloc, tokens, pairs) {
        Ok(index) => Some(index),
        Err(_) => None,
    }
}

/// What an index says of the keys of the value to which the tokens lead, if there is an index.
pub(crate) fn table_at<'k>(
    index: Option<&'k KeyIndex>,
    tokens: &[CowStr<'_>],
) -> Option<&'k KeyTable>
    ensures { IfSome result (λ table. (t u : Meant)
        → IfSome index.entry (λ index. Indexes index.now t)
        → at t (texts tokens.now) ≡ Ok u → ListsIn table.now u) }
{
    match index {
        Some(index) => index.table_at(tokens),
        None => None,
    }
}

/// Where an edit is made that leaves the steps of an index at this value. In a sequence it may move what comes after.
fn reach_beside(tree: &Tree) -> Reach
    ensures { (result ≡ Reach.Around)
        ⊎ ((result ≡ Reach.Apart) × ((ms : Members) × (tree_of tree.now ≡ mapping ms))) }
{
    match tree {
        Tree::Map(_) => Reach::Apart,
        _ => Reach::Around,
    }
}

/// Whether the tokens are these steps.
fn are_steps(steps: &[Text], tokens: &[CowStr<'_>]) -> bool
    ensures { result ≡ true → steps_of steps.now ≡ texts tokens.now }
{
    if steps.len() != tokens.len() {
        return false;
    }
    for (place, step) in steps.iter().enumerate() {
        if !is_same(step, &tokens[place]) {
            return false;
        }
    }
    true
}

/// Whether a step and a token are the same text.
fn is_same(step: &Text, token: &CowStr<'_>) -> bool
    ensures { result ≡ same_text (chars (text_bytes step.now)) (chars (cow_str_bytes token.now)) }
{
    token.as_str() == step.as_str()
}

/// The last of some tokens.
fn last_of<'t>(tokens: &'t [CowStr<'_>]) -> &'t str
    requires { 0 < length tokens.now }
    ensures { (before : List (List ℕ)) (key : List ℕ)
        → texts tokens.now ≡ before ++ key ∷ [] → chars result.now ≡ key }
{
    let (last, _) = tokens.split_last().unwrap();
    last.as_str()
}

/// Copies of tokens.
fn texts_of(alloc: Global, tokens: &[CowStr<'_>]) -> Result<Vec<Text>, AllocError>
    ensures { IfOk result (λ steps. steps_of steps.items ≡ texts tokens.now) }
{
    let mut steps = Vec::with_capacity(alloc, tokens.len())?;
    for (place, token) in tokens.iter().enumerate() {
        steps.push(Text::new(alloc, token.as_str())?)?;
    }
    Ok(steps)
}
