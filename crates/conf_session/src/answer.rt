// The texts of answers.
ghost use Rattle.std.specs.Prelude.{◌≡◌, ◌≤◌, ◌++◌, [], ◌∷◌, IfOk, IfErr, OnOk, string_bytes, decimal, codes};
ghost use Rattle.conf_session.specs.Prelude.{chars, depth, text, framed_text_bytes, framed_text, own_limits, tree_of};
ghost use Rattle.conf_session.specs.Prelude.{elements_of, text_bytes, IsState, names_of};
ghost use Rattle.yaml_data.specs.declared.text.Text.{Text as Name};
ghost use Rattle.conf_session.specs.Requests.{getting, exporting, naming};
ghost use Rattle.conf_session.specs.Answers.{one, text_elements};
ghost use Rattle.conf_session.specs.Runs.{stored_of};
ghost use Rattle.conf_session.specs.Replies.{Replies};

use crate::fault::SessionFault;
use crate::reply::{Reply, refused};
use conf_conditions::LARGE;
use conf_disk::Disk;
use conf_state::StoreFault;
use conf_store::Store;
use itoa::Buffer;
use std::alloc::{AllocError, Global};
use tree_path::Path;
use yaml_tree::{Sink, Text, Tree, write_key, write_value};

/// The document of a mapping with one key: a line of `---`, the mapping in the one style, and a line
/// of `...`.
fn answer(alloc: Global, key: &str, value: &Tree) -> Result<String, AllocError>
    requires { depth (tree_of value.now) ≤ own_limits.depth }
    ensures { IfOk result (λ text. string_bytes text
        ≡ framed_text_bytes (one (chars key.now) (tree_of value.now))) }
{
    let mut text = String::new(alloc);
    write_answer(key, value, &mut text)?;
    Ok(text)
}

/// Writes such a document.
fn write_answer<S: Sink>(key: &str, value: &Tree, sink: &mut S) -> Result<(), S::Fault>
    requires { depth (tree_of value.now) ≤ own_limits.depth }
    ensures { OnOk result
        (S.Takes sink.old (framed_text (one (chars key.now) (tree_of value.now))) sink.new) }
{
    sink.put_text("---\n")?;
    write_key(key, 0, sink)?;
    write_value(value, 0, sink)?;
    sink.put_text("...\n")
}

/// The most bytes of the answer with a count: 15 beside its digits.
const COUNT_ANSWER_LIMIT: usize = 35;

/// The answer to an accepted command or a checkpoint: the count.
pub fn count_answer(alloc: Global, count: u64) -> Result<String, AllocError>
    ensures { IfOk result (λ reply.
        string_bytes reply ≡ framed_text_bytes (one (codes "ok") (text (decimal count)))) }
{
    let mut text = String::with_capacity(alloc, COUNT_ANSWER_LIMIT)?;
    write_count(count, &mut text)?;
    Ok(text)
}

/// Writes the document of a count, as decimal digits in double quotes.
fn write_count<S: Sink>(count: u64, sink: &mut S) -> Result<(), S::Fault>
    ensures { OnOk result
        (S.Takes sink.old (framed_text (one (codes "ok") (text (decimal count)))) sink.new) }
{
    let mut digits = Buffer::new();
    sink.put_text("---\nok: \"")?;
    sink.put_text(digits.format(count))?;
    sink.put_text("\"\n...\n")
}

/// The answer to a `get`: the value at a path of a configuration. The store stays as it is, and gets ready for further
/// reads there. It fails only if memory runs out.
pub fn get_answer<D: Disk>(
    alloc: Global,
    store: &mut Store<D>,
    name: &str,
    path: &str,
) -> Result<Reply, SessionFault>
    ensures ok { IfOk result
        (Replies (stored_of store.old) (getting (chars name.now) (chars path.now))) }
    ensures memory { IfErr result (λ fault. fault ≡ SessionFault.OutOfMemory) }
    ensures same { store.new ≡ store.old }
{
    let length = match store.config(name) {
        Ok(config) => config.style_length(),
        Err(fault) => return refused(fault),
    };
    let path = match Path::parse(alloc, path) {
        Ok(path) => path,
        Err(fault) => return refused(StoreFault::Path(fault)),
    };
    index_if_large(store, name, &path, length);
    match store.get(name, &path) {
        Ok(value) => Ok(Reply::Done(answer(alloc, "value", value)?)),
        Err(fault) => refused(fault),
    }
}

/// Gets a store ready for further reads at a path of a configuration that is so long, if that is worth it.
fn index_if_large<D: Disk>(store: &mut Store<D>, name: &str, path: &Path, length: u64)
    ensures { store.new ≡ store.old }
{
    if length >= LARGE {
        store.index_for(name, path);
    }
}

/// The answer to an `export`: the text of a configuration. It fails only if memory runs out.
pub fn export_answer<D: Disk>(
    alloc: Global,
    store: &Store<D>,
    name: &str,
) -> Result<Reply, SessionFault>
    ensures ok { IfOk result (Replies (stored_of store.now) (exporting (chars name.now))) }
    ensures memory { IfErr result (λ fault. fault ≡ SessionFault.OutOfMemory) }
{
    match store.export(name) {
        Ok(text) => {
            let text = Tree::Text(Text::from_string(text));
            Ok(Reply::Done(answer(alloc, "text", &text)?))
        }
        Err(fault) => refused(fault),
    }
}

/// The answer to `names`: the names of the configurations, in order.
pub fn names_answer<D: Disk>(alloc: Global, store: &Store<D>) -> Result<Reply, AllocError>
    ensures { IfOk result (Replies (stored_of store.now) naming) }
{
    let names = Tree::Seq(name_texts(alloc, store)?);
    Ok(Reply::Done(answer(alloc, "names", &names)?))
}

/// The names of the configurations as texts, in order.
fn name_texts<D: Disk>(alloc: Global, store: &Store<D>) -> Result<Vec<Tree>, AllocError>
    ensures names { IfOk result (λ names. elements_of names.items
        ≡ text_elements (names_of store.now.state.configs)) }
    ensures limits { IsState store.now.state }
{
    let mut names = Vec::new(alloc);
    for name in store.names() {
        push_name(alloc, &mut names, name)?;
    }
    Ok(names)
}

/// Appends a name.
fn push_name(alloc: Global, names: &mut Vec<Tree>, name: &str) -> Result<(), AllocError>
    ensures { OnOk result ((t : Name) × (names.new.items ≡ names.old.items ++ Tree.Text t ∷ [])
        × (text_bytes t ≡ name.now)) }
{
    let name = Text::new(alloc, name)?;
    names.push(Tree::Text(name))?;
    Ok(())
}
