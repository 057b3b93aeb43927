// The members of an edit, as a document has them.
ghost use Rattle.std.specs.Prelude.{◌≡◌, IfSome, option_map};
ghost use Rattle.conf_record.specs.Prelude.{chars, members_of};
ghost use Rattle.conf_record.specs.RecordsRead.{values, import_of, set_of, delete_of, edit_under};
ghost use Rattle.conf_record.specs.Reading.{AreKept, KeepsTree, edit_seen};

use crate::fields::{keys_are, last_text, last_value, next_text};
use yaml_tree::{Text, Tree};

/// The members of an edit. `T` is what is read of a name or a path, and `V` of a value. Whether the name and the path
/// are good is not known yet.
#[derive(Drop)]
pub enum EditMembers<T, V> {
    /// The name and the value of an import. The key of the value is that of the document.
    Import { name: T, value: V },
    /// The name, the path and the value of a set.
    Set { name: T, path: T, value: V },
    /// The name and the path of a delete.
    Delete { name: T, path: T },
}

/// The members of the edit that a mapping is, by its pairs, if an import has its value under `import_key`. Returns
/// `None` if the keys are those of no edit, in their order, or a name or a path is no text. It takes no memory.
pub fn members_from(pairs: Vec<(Text, Tree)>, import_key: &str) -> Option<EditMembers<Text, Tree>>
    requires kept { AreKept (values (members_of pairs.items)) }
    ensures read { option_map edit_seen result
        ≡ edit_under (chars import_key.now) (members_of pairs.items) }
    ensures kept { IfSome result (λ members. KeepsTree (edit_seen members)) }
{
    if keys_are(&["import", import_key], &pairs) {
        import_from(pairs)
    } else if keys_are(&["set", "path", "value"], &pairs) {
        set_from(pairs)
    } else if keys_are(&["delete", "path"], &pairs) {
        delete_from(pairs)
    } else {
        None
    }
}

/// The members of the import with these values: a text, and any tree.
fn import_from(pairs: Vec<(Text, Tree)>) -> Option<EditMembers<Text, Tree>>
    requires kept { AreKept (values (members_of pairs.items)) }
    ensures read { option_map edit_seen result ≡ import_of (values (members_of pairs.items)) }
    ensures kept { IfSome result (λ members. KeepsTree (edit_seen members)) }
{
    let mut values = pairs.into_iter();
    let name = next_text(&mut values)?;
    let value = last_value(values)?;
    Some(EditMembers::Import { name, value })
}

/// The members of the set with these values: two texts, and any tree.
fn set_from(pairs: Vec<(Text, Tree)>) -> Option<EditMembers<Text, Tree>>
    requires kept { AreKept (values (members_of pairs.items)) }
    ensures read { option_map edit_seen result ≡ set_of (values (members_of pairs.items)) }
    ensures kept { IfSome result (λ members. KeepsTree (edit_seen members)) }
{
    let mut values = pairs.into_iter();
    let name = next_text(&mut values)?;
    let path = next_text(&mut values)?;
    let value = last_value(values)?;
    Some(EditMembers::Set { name, path, value })
}

/// The members of the delete with these values: two texts.
fn delete_from(pairs: Vec<(Text, Tree)>) -> Option<EditMembers<Text, Tree>>
    ensures read { option_map edit_seen result ≡ delete_of (values (members_of pairs.items)) }
    ensures kept { IfSome result (λ members. KeepsTree (edit_seen members)) }
{
    let mut values = pairs.into_iter();
    let name = next_text(&mut values)?;
    let path = last_text(values)?;
    Some(EditMembers::Delete { name, path })
}
