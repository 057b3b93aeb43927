// The edits between known trees, by hand, and what tree_path makes of the first tree by them.
use crate::{Edit, diff};
use std::alloc::{AllocError, Global};
use std::fmt::Write;
use std::process::Abort;
use std::test::Fail;
use tree_path::{Path, delete, set};
use yaml_data::{Text, Tree, has_distinct_keys};

/// How deep a tree may be that is copied.
const DEPTH: u8 = 131;

fn text(alloc: Global, text: &str) -> Result<Tree, AllocError> {
    Ok(Tree::Text(Text::new(alloc, text)?))
}

/// A sequence of texts.
fn sequence(alloc: Global, texts: &[&str]) -> Result<Tree, AllocError> {
    let mut items = Vec::new(alloc);
    for item in texts {
        items.push(text(alloc, item)?)?;
    }
    Ok(Tree::Seq(items))
}

/// A mapping of keys to texts.
fn mapping(alloc: Global, members: &[(&str, &str)]) -> Result<Tree, AllocError> {
    let mut pairs = Vec::new(alloc);
    for (key, value) in members {
        pairs.push((Text::new(alloc, key)?, text(alloc, value)?))?;
    }
    Ok(Tree::Map(pairs))
}

/// A mapping of one key to a tree.
fn under(alloc: Global, key: &str, value: Tree) -> Result<Tree, AllocError> {
    let mut pairs = Vec::new(alloc);
    pairs.push((Text::new(alloc, key)?, value))?;
    Ok(Tree::Map(pairs))
}

/// The edits in words, each with a `;` after it.
fn in_words(alloc: Global, edits: &[Edit<'_>]) -> Result<String, Fail> {
    let mut words = String::new(alloc);
    for edit in edits {
        match edit {
            Edit::Set { path, value } => write!(words, "set {path} {value:?};")?,
            Edit::Delete { path } => write!(words, "delete {path};")?,
        }
    }
    Ok(words)
}

/// Performs an edit by tree_path.
fn perform(rt: &impl Abort, alloc: Global, tree: &mut Tree, edit: &Edit<'_>) -> Result<(), Fail> {
    match edit {
        Edit::Set { path, value } => {
            assert!(rt; !value.is_deeper_than(DEPTH));
            let path = Path::parse(alloc, path)?;
            set(alloc, tree, &path, value.try_copy(alloc)?)?;
        }
        Edit::Delete { path } => {
            let path = Path::parse(alloc, path)?;
            assert!(rt; path.steps() > 0);
            let _ = delete(tree, &path)?;
        }
    }
    Ok(())
}

/// Compares the edits between two trees with those that are wanted, and makes the second tree of the first by them.
fn expect(
    rt: &impl Abort,
    alloc: Global,
    mut first: Tree,
    second: &Tree,
    wanted: &str,
) -> Result<(), Fail> {
    assert!(rt; has_distinct_keys(alloc, &first)?);
    assert!(rt; has_distinct_keys(alloc, second)?);
    let edits = diff(alloc, &first, second)?;
    assert_eq!(rt; in_words(alloc, &edits)?.as_str(), wanted);
    for edit in &edits {
        perform(rt, alloc, &mut first, edit)?;
    }
    let made = format!(in alloc; "{first:?}")?;
    let meant = format!(in alloc; "{second:?}")?;
    assert_eq!(rt; made.as_str(), meant.as_str());
    Ok(())
}

#[test]
fn mappings(rt: HostRuntime) -> Result<(), Fail> {
    let alloc = rt.alloc();
    let rows: [(&[(&str, &str)], &[(&str, &str)], &str); 12] = [
        (&[], &[], ""),
        (&[("a", "1"), ("b", "2")], &[("a", "1"), ("b", "2")], ""),
        // a value is replaced in its place
        (
            &[("a", "1"), ("b", "2"), ("c", "3")],
            &[("a", "1"), ("b", "4"), ("c", "3")],
            "set /b Text(\"4\");",
        ),
        // a member is removed, and one is added
        (
            &[("a", "1"), ("b", "2"), ("c", "3")],
            &[("a", "1"), ("c", "3")],
            "delete /b;",
        ),
        (
            &[("a", "1")],
            &[("a", "1"), ("b", "2")],
            "set /b Text(\"2\");",
        ),
        (&[], &[("a", "1")], "set /a Text(\"1\");"),
        (&[("a", "1"), ("b", "2")], &[], "delete /a;delete /b;"),
        // a member comes to the end
        (
            &[("a", "1"), ("b", "2"), ("c", "3")],
            &[("a", "1"), ("c", "3"), ("b", "2")],
            "delete /b;set /b Text(\"2\");",
        ),
        // no key stays where one comes before it
        (
            &[("b", "2")],
            &[("a", "1"), ("b", "2")],
            "set  Map([(\"a\", Text(\"1\")), (\"b\", Text(\"2\"))]);",
        ),
        // keys with a slash or a tilde, and those that would mean something else in a sequence
        (
            &[("a/b", "1"), ("~", "2"), ("~1", "3")],
            &[("a/b", "4"), ("~", "5"), ("~1", "6")],
            "set /a~1b Text(\"4\");set /~0 Text(\"5\");set /~01 Text(\"6\");",
        ),
        (
            &[("", "1"), ("-", "2"), ("0", "3")],
            &[("", "4"), ("-", "5"), ("0", "6")],
            "set / Text(\"4\");set /- Text(\"5\");set /0 Text(\"6\");",
        ),
        (
            &[("\u{e4}\u{1f600}", "1")],
            &[("\u{e4}\u{1f600}", "2")],
            "set /\u{e4}\u{1f600} Text(\"2\");",
        ),
    ];
    for (first, second, wanted) in rows {
        let second = mapping(alloc, second)?;
        expect(&rt, alloc, mapping(alloc, first)?, &second, wanted)?;
    }
    Ok(())
}

#[test]
fn sequences(rt: HostRuntime) -> Result<(), Fail> {
    let alloc = rt.alloc();
    let rows: [(&[&str], &[&str], &str); 12] = [
        (&[], &[], ""),
        (&["a", "b"], &["a", "b"], ""),
        (&["a", "b", "c"], &["a", "x", "c"], "set /1 Text(\"x\");"),
        // one is removed: in the middle, at the end, at the start
        (&["a", "b", "c"], &["a", "c"], "delete /1;"),
        (&["a", "b"], &["a"], "delete /1;"),
        (&["a", "b"], &["b"], "delete /0;"),
        (&["a", "b"], &[], "delete /0;delete /0;"),
        // some come to the end
        (
            &["a"],
            &["a", "b", "c"],
            "set /- Text(\"b\");set /- Text(\"c\");",
        ),
        (&[], &["a"], "set /- Text(\"a\");"),
        // one comes to the start, so that each element moves
        (
            &["a", "b"],
            &["x", "a", "b"],
            "set /0 Text(\"x\");set /1 Text(\"a\");set /- Text(\"b\");",
        ),
        // one is replaced, and two are removed behind it
        (
            &["a", "b", "c", "d"],
            &["x", "d"],
            "set /0 Text(\"x\");delete /1;delete /1;",
        ),
        (
            &["0", "1", "2", "3", "4", "5", "6", "7", "8", "9", "10"],
            &["0", "1", "2", "3", "4", "5", "6", "7", "8", "9", "x"],
            "set /10 Text(\"x\");",
        ),
    ];
    for (first, second, wanted) in rows {
        let second = sequence(alloc, second)?;
        expect(&rt, alloc, sequence(alloc, first)?, &second, wanted)?;
    }
    Ok(())
}

#[test]
fn kinds(rt: HostRuntime) -> Result<(), Fail> {
    let alloc = rt.alloc();
    let second = text(alloc, "x")?;
    expect(&rt, alloc, text(alloc, "x")?, &second, "")?;
    expect(&rt, alloc, text(alloc, "")?, &second, "set  Text(\"x\");")?;
    expect(
        &rt,
        alloc,
        sequence(alloc, &["x"])?,
        &second,
        "set  Text(\"x\");",
    )?;
    let second = sequence(alloc, &[])?;
    expect(&rt, alloc, mapping(alloc, &[])?, &second, "set  Seq([]);")?;
    let second = under(
        alloc,
        "a",
        under(alloc, "b", sequence(alloc, &["x", "2"])?)?,
    )?;
    let first = under(
        alloc,
        "a",
        under(alloc, "b", sequence(alloc, &["1", "2", "3"])?)?,
    )?;
    expect(
        &rt,
        alloc,
        first,
        &second,
        "set /a/b/0 Text(\"x\");delete /a/b/2;",
    )
}
