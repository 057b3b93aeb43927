// An edit of a tree.
use yaml_data::Tree;

/// An edit of a tree at a place, to which a pointer (RFC 6901) leads. What it means is what `set` and `delete` of
/// tree_path do.
#[derive(Debug, Drop)]
pub enum Edit<'t> {
    /// A value is put at the place. A new key of a mapping goes last, and the index `-` means a new last element.
    Set { path: String, value: &'t Tree },
    /// What is at the place is removed, with its key. In a sequence the elements after it move up.
    Delete { path: String },
}
