// A tree that is good to keep.
ghost use Rattle.std.specs.Prelude.{◌≡◌, ◌+◌, ◌*◌, ◌^◌, ◌<◌, ◌≤◌, true, [], Ok, Err, IfOk, IfErr, IfSome, MatchOption};
ghost use Rattle.yaml_config.specs.Prelude.{Good, lines_after_dash, style_text, byte_len, depth, distinct, text};
ghost use Rattle.yaml_config.specs.Prelude.{tree_of, element_size, indented, at, Indexes};
ghost use Rattle.yaml_config.specs.Changes.{child_size};
ghost use Rattle.yaml_config.specs.Kept.{IsKept, IsFirstFault, own_limits, limits_of};

use crate::change::Slot;
use crate::limits::Limits;
use crate::tally::Tally;
use std::alloc::{AllocError, Global};
use std::marker::Model;
use tree_path::{KeyIndex, Path, PathFault, at_by};
use yaml_data::{Text, Tree, has_distinct_keys};
use yaml_events::ReadFault;
use yaml_writer::Size;

/// The bytes of the empty text in the one style, `""` and a line feed.
const EMPTY_LENGTH: u64 = 3;

/// A tree in whose mappings no key comes twice, which is at most 131 deep and has at most 67,108,864 bytes in the one
/// style. Its length in the one style is kept with it, and how many of its lines are indented, where that was counted.
/// Contracts see the tree.
#[derive(Debug, Drop)]
pub struct Config {
    tree: Tree,
    length: u64,
    lines: Option<u64>,
    /// Where the keys of the wide mapping are in which keys were last searched for.
    index: Option<Box<KeyIndex>>,
}

impl Model for Config {
    ghost use Rattle.yaml_data.specs.declared.tree.Tree.{Tree};
    ghost use Rattle.yaml_data.specs.contracts.tree.Tree as trees;

    ghost Value = { Tree };

    ghost coded = { trees.the_row.coded };

    ghost use Rattle.std.specs.Prelude.{◌≡◌, IfSome};
    ghost use Rattle.yaml_grammar.specs.Style.{style_text};
    ghost use Rattle.yaml_grammar.specs.Texts.{byte_len};
    ghost use Rattle.yaml_config.specs.Kept.{IsKept};
    ghost use Rattle.yaml_data.specs.Seen.{tree_of};
    ghost use Rattle.yaml_writer.specs.Sizes.{indented};
    ghost use Rattle.tree_path.specs.Tables.{Indexes};

    ghost view = { λ c. c.tree };

    ghost invariant = { λ c. IsKept (tree_of c.tree)
        × (c.length ≡ byte_len (style_text (tree_of c.tree)))
        × IfSome c.lines (λ lines. lines ≡ indented (tree_of c.tree))
        × IfSome c.index (λ index. Indexes index.value (tree_of c.tree)) };
}

impl Config {
    /// The configuration of a tree. The tree may have any depth.
    ///
    /// # Errors
    ///
    /// The tree is returned with the first of these faults that holds:
    ///
    /// - [`ReadFault::KeyTwice`] if a mapping holds a key twice.
    /// - [`ReadFault::TooDeep`] if the tree is more than 131 deep.
    /// - [`ReadFault::LargeInStyle`] if it has more than 67,108,864 bytes in the one style.
    ///
    /// [`ReadFault::OutOfMemory`] may come at any point: keys are looked up in memory.
    pub fn new(alloc: Global, tree: Tree) -> Result<Config, (Tree, ReadFault)>
        ensures ok { IfOk result (λ config. (config ≡ tree) × IsKept (tree_of tree)) }
        ensures refused { IfErr result (λ refused. (refused.0 ≡ tree)
            × IsFirstFault own_limits (tree_of tree) refused.1) }
    {
        if tree.is_deeper_than(Limits::KEPT.depth as u8) {
            let fault = deep_fault(alloc, &tree);
            return Err((tree, fault));
        }
        Config::within(alloc, tree, &Limits::KEPT)
    }

    /// The configuration of a tree that keeps the limit of depth. The limits are at most those that every
    /// configuration keeps ([`Limits::KEPT`]).
    ///
    /// # Errors
    ///
    /// The tree is returned with the first of these faults that holds:
    ///
    /// - [`ReadFault::KeyTwice`] if a mapping holds a key twice.
    /// - [`ReadFault::LargeInStyle`] if the tree has more than `limits.style` bytes in the one style.
    ///
    /// [`ReadFault::OutOfMemory`] may come at any point: keys are looked up in memory.
    pub fn within(alloc: Global, tree: Tree, limits: &Limits) -> Result<Config, (Tree, ReadFault)>
        requires shallow { depth (tree_of tree) ≤ limits.now.depth }
        requires depth { limits.now.depth ≤ own_limits.depth }
        requires style { limits.now.style ≤ own_limits.style }
        ensures ok { IfOk result (λ config. (config ≡ tree)
            × Good (tree_of tree) (limits_of limits.now)) }
        ensures refused { IfErr result (λ refused. (refused.0 ≡ tree)
            × IsFirstFault (limits_of limits.now) (tree_of tree) refused.1) }
    {
        match has_distinct_keys(alloc, &tree) {
            Ok(true) => Config::with_distinct_keys(tree, limits),
            Ok(false) => Err((tree, ReadFault::KeyTwice)),
            Err(_) => Err((tree, ReadFault::OutOfMemory)),
        }
    }

    /// The configuration of a tree that keeps the limit of depth, and in each of whose mappings the keys differ. The
    /// limits are at most those that every configuration keeps ([`Limits::KEPT`]). It takes no memory.
    ///
    /// # Errors
    ///
    /// The tree is returned with [`ReadFault::LargeInStyle`] if it has more than `limits.style` bytes in the one style.
    pub fn with_distinct_keys(tree: Tree, limits: &Limits) -> Result<Config, (Tree, ReadFault)>
        requires keys { distinct (tree_of tree) ≡ true }
        requires shallow { depth (tree_of tree) ≤ limits.now.depth }
        requires depth { limits.now.depth ≤ own_limits.depth }
        requires style { limits.now.style ≤ own_limits.style }
        ensures ok { IfOk result (λ config. (config ≡ tree)
            × Good (tree_of tree) (limits_of limits.now)) }
        ensures refused { IfErr result (λ refused. (refused ≡ (tree, ReadFault.LargeInStyle))
            × (limits.now.style < byte_len (style_text (tree_of tree)))) }
    {
        match known_size(&tree, limits.style) {
            None => Err((tree, ReadFault::LargeInStyle)),
            Some(element) => Ok(Config::with_size(tree, element)),
        }
    }

    /// The configuration of a tree within the limits, whose length in the one style, in bytes, is known. It takes no
    /// memory, and counts nothing.
    pub fn from_parts(tree: Tree, length: u64) -> Config
        requires kept { IsKept (tree_of tree) }
        requires length { length ≡ byte_len (style_text (tree_of tree)) }
        ensures { result ≡ tree }
    {
        Config {
            tree,
            length,
            lines: None,
            index: None,
        }
    }

    /// The configuration of a tree within the limits, whose size as an element of a sequence, after the `- `, is known
    /// ([`Size::of_element`]). It takes no memory, and counts nothing.
    pub fn with_size(tree: Tree, element: Size) -> Config
        requires kept { IsKept (tree_of tree) }
        requires size { element ≡ element_size (tree_of tree) }
        ensures { result ≡ tree }
    {
        let length = length_from(element, &tree);
        Config {
            tree,
            length,
            lines: Some(element.lines as u64),
            index: None,
        }
    }

    /// The empty text as a configuration. It takes no memory.
    pub fn empty() -> Config
        ensures { tree_of result ≡ text [] }
    {
        Config {
            tree: Tree::Text(Text::empty()),
            length: EMPTY_LENGTH,
            lines: Some(0),
            index: None,
        }
    }

    /// The tree.
    pub fn tree(&self) -> &Tree
        ensures same { result.now ≡ self.now }
        ensures kept { IsKept (tree_of self.now) }
    {
        &self.tree
    }

    /// The value at a path (RFC 6901, 4), as [`tree_path::at`] finds it, with the same faults. A key of a wide mapping
    /// is looked up where the configuration has an index of the mapping. It takes no memory.
    pub fn value_at(&self, path: &Path) -> Result<&Tree, PathFault>
        ensures ok { IfOk result (λ value. at (tree_of self.now) path.now ≡ Ok (tree_of value.now)) }
        ensures refused { IfErr result (λ fault. at (tree_of self.now) path.now ≡ Err fault) }
    {
        at_by(self.tree(), path, self.index())
    }

    /// The tree, taken out of the configuration, so that it can be changed.
    pub fn into_tree(self) -> Tree
        ensures same { result ≡ self }
        ensures kept { IsKept (tree_of self) }
    {
        let Config { tree, .. } = self;
        tree
    }

    /// How many bytes the tree has in the one style, at most 67,108,864. They are not counted again.
    pub fn style_length(&self) -> u64
        ensures { result ≡ byte_len (style_text (tree_of self.now)) }
    {
        self.length
    }

    /// The size of the tree as a value in this context. It is counted only if it isn't known: a configuration that was
    /// made with its size, or is empty, has it.
    pub fn size(&self, slot: Slot) -> Size
        ensures size { result ≡ child_size slot (tree_of self.now) }
        ensures small { (result.bytes < 2 ^ 32) × (result.lines < 2 ^ 32) }
    {
        match self.lines {
            Some(lines) => slot.size_from(element_from(self.length, lines, &self.tree), &self.tree),
            None => slot.size_of(&self.tree),
        }
    }

    /// How deep the tree is, at most 131, as [`Tree::depth`] counts.
    pub fn depth(&self) -> u64
        ensures depth { result ≡ depth (tree_of self.now) }
        ensures kept { IsKept (tree_of self.now) }
    {
        self.tree.depth()
    }

    /// A copy: the same texts in the same order, with no index. It fails only if memory runs out.
    pub fn try_copy(&self, alloc: Global) -> Result<Config, AllocError>
        ensures { IfOk result (λ copy. tree_of copy ≡ tree_of self.now) }
    {
        let tree = self.tree.try_copy(alloc)?;
        Ok(Config {
            tree,
            length: self.length,
            lines: self.lines,
            index: None,
        })
    }

    /// The index of a wide mapping, if there is one.
    pub(crate) fn index(&self) -> Option<&KeyIndex>
        ensures { IfSome result (λ index. Indexes index.now (tree_of self.now)) }
    {
        match &self.index {
            Some(index) => Some(&**index),
            None => None,
        }
    }

    /// The index of a wide mapping, taken out of the configuration.
    pub(crate) fn take_index(&mut self) -> Option<Box<KeyIndex>>
        ensures same { self.new ≡ self.old }
        ensures index { IfSome result (λ index. Indexes index.value (tree_of self.old)) }
    {
        self.index.take()
    }

    /// Puts an index of a wide mapping in.
    pub(crate) fn put_index(&mut self, index: Option<Box<KeyIndex>>)
        requires { IfSome index (λ index. Indexes index.value (tree_of self.old)) }
        ensures { self.new ≡ self.old }
    {
        self.index = index;
    }
}

/// The size of a tree as an element, if the tree has at most `max` bytes in the one style.
fn known_size(tree: &Tree, max: u64) -> Option<Size>
    requires deep { depth (tree_of tree.now) ≤ own_limits.depth }
    requires style { max ≤ own_limits.style }
    ensures { MatchOption result (max < byte_len (style_text (tree_of tree.now)))
        (λ element. (element ≡ element_size (tree_of tree.now))
        × (byte_len (style_text (tree_of tree.now)) ≤ max)) }
{
    let Tally { bytes, lines } = Tally::of_element(tree);
    if bytes == u64::MAX {
        return None;
    }
    let element = Size {
        bytes: u128::from(bytes),
        lines: u128::from(lines),
    };
    if element.bytes - dash_indent(tree) * element.lines > u128::from(max) {
        return None;
    }
    Some(element)
}

/// The length of a tree in the one style, from its size as an element.
fn length_from(element: Size, tree: &Tree) -> u64
    requires kept { IsKept (tree_of tree.now) }
    requires element { element ≡ element_size (tree_of tree.now) }
    ensures { result ≡ byte_len (style_text (tree_of tree.now)) }
{
    (element.bytes - dash_indent(tree) * element.lines) as u64
}

/// The size of a tree as an element, from its length in the one style and the number of its indented lines.
fn element_from(length: u64, lines: u64, tree: &Tree) -> Size
    requires kept { IsKept (tree_of tree.now) }
    requires length { length ≡ byte_len (style_text (tree_of tree.now)) }
    requires lines { lines ≡ indented (tree_of tree.now) }
    ensures { result ≡ element_size (tree_of tree.now) }
{
    let lines = u128::from(lines);
    Size {
        bytes: u128::from(length) + dash_indent(tree) * lines,
        lines,
    }
}

/// By how many spaces more the lines of a tree are indented after a `- ` than those of the tree by itself.
fn dash_indent(tree: &Tree) -> u128
    ensures length { byte_len (lines_after_dash (tree_of tree.now) 0)
        ≡ byte_len (style_text (tree_of tree.now)) + result * indented (tree_of tree.now) }
    ensures small { result ≤ 2 }
{
    match tree {
        Tree::Text(_) => 0,
        Tree::Seq(_) => 2,
        Tree::Map(_) => 2,
    }
}

/// The fault of a tree that is too deep: `KeyTwice` if that holds, else `TooDeep`; or memory ran out.
fn deep_fault(alloc: Global, tree: &Tree) -> ReadFault
    requires { own_limits.depth < depth (tree_of tree.now) }
    ensures { IsFirstFault own_limits (tree_of tree.now) result }
{
    match has_distinct_keys(alloc, tree) {
        Ok(true) => ReadFault::TooDeep,
        Ok(false) => ReadFault::KeyTwice,
        Err(_) => ReadFault::OutOfMemory,
    }
}
