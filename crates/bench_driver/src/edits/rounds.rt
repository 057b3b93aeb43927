// The edits themselves: of a tree, and of a configuration by commands.
use crate::edits::order::{Order, Target};
use crate::failed::Failed;
use conf_state::{Command, Room, State, step};
use std::alloc::{AllocError, Global};
use tree_path::{Path, delete, set};
use yaml_tree::{Config, Limits, Text, Tree, style_len};

/// The greatest depth of a tree whose length is printed.
const DEEPEST: u8 = Limits::KEPT.depth as u8;

/// How many bytes the tree of an order has in the one style, before its edits.
/// It fails if the tree is deeper than 131 or longer than 2^64 - 1 bytes, or memory runs out.
pub(crate) fn length_in_style(alloc: Global, order: &Order) -> Result<u64, Failed> {
    let tree = order.shape.tree(alloc)?;
    if tree.is_deeper_than(DEEPEST) {
        return Err(Failed::Run);
    }
    style_len(&tree, u64::MAX).ok_or(Failed::Run)
}

/// Makes the edits of an order.
/// It fails if an edit is refused, the tree of a state is too deep or too long for a configuration, or memory runs out.
pub(crate) fn run(alloc: Global, order: &Order) -> Result<(), Failed> {
    let tree = order.shape.tree(alloc)?;
    let pointer = order.shape.end(alloc)?;
    match order.target {
        Target::Tree => edit_tree(alloc, tree, &pointer, order.rounds),
        Target::State => edit_state(alloc, tree, &pointer, order.rounds),
    }
}

fn edit_tree(alloc: Global, mut tree: Tree, pointer: &str, rounds: u32) -> Result<(), Failed> {
    let path = Path::parse(alloc, pointer)?;
    for _ in 0..rounds {
        set_and_delete(alloc, &mut tree, &path)?;
    }
    Ok(())
}

fn set_and_delete(alloc: Global, tree: &mut Tree, path: &Path) -> Result<(), Failed> {
    let value = Tree::Text(Text::new(alloc, "set")?);
    set(alloc, tree, path, value).map_err(|(_, fault)| fault)?;
    // The pointer to the end has steps; `delete` requires one.
    if path.steps() > 0 {
        let _ = delete(tree, path)?;
    }
    Ok(())
}

fn edit_state(alloc: Global, tree: Tree, pointer: &str, rounds: u32) -> Result<(), Failed> {
    let mut state = State::new(alloc);
    let import = import_of(alloc, tree)?;
    step(alloc, &mut state, import, Room::Enough)?;
    for _ in 0..rounds {
        set_and_delete_by_commands(alloc, &mut state, pointer)?;
    }
    Ok(())
}

fn set_and_delete_by_commands(
    alloc: Global,
    state: &mut State,
    pointer: &str,
) -> Result<(), Failed> {
    let set = set_at(alloc, pointer)?;
    step(alloc, state, set, Room::Enough)?;
    let delete = delete_at(alloc, pointer)?;
    step(alloc, state, delete, Room::Enough)?;
    Ok(())
}

fn import_of(alloc: Global, tree: Tree) -> Result<Command, Failed> {
    let tree = config(alloc, tree)?;
    let name = String::from_str(alloc, "c")?;
    Ok(Command::Import { name, tree })
}

fn set_at(alloc: Global, pointer: &str) -> Result<Command, Failed> {
    let value = config(alloc, Tree::Text(Text::new(alloc, "set")?))?;
    let name = String::from_str(alloc, "c")?;
    let path = String::from_str(alloc, pointer)?;
    Ok(Command::Set { name, path, value })
}

fn delete_at(alloc: Global, pointer: &str) -> Result<Command, AllocError> {
    let name = String::from_str(alloc, "c")?;
    let path = String::from_str(alloc, pointer)?;
    Ok(Command::Delete { name, path })
}

fn config(alloc: Global, tree: Tree) -> Result<Config, Failed> {
    Config::new(alloc, tree).map_err(|_| Failed::Run)
}
