// Edits of trees by hand; those of RFC 6902 are its examples.
use crate::{EditFault, Move, PlainSet, inserted, moved, with_parents};
use std::alloc::{AllocError, Global};
use std::process::Abort;
use std::test::Fail;
use yaml_config::Config;
use yaml_data::{Text, Tree};

/// The most levels of a value.
const DEPTH: usize = 131;

fn text(alloc: Global, text: &str) -> Result<Tree, AllocError> {
    Ok(Tree::Text(Text::new(alloc, text)?))
}

/// A sequence of texts.
fn sequence(alloc: Global, texts: &[&str]) -> Result<Tree, AllocError> {
    let mut items = Vec::new(alloc);
    for item in texts {
        items.push(text(alloc, item)?)?;
    }
    Ok(Tree::Seq(items))
}

/// A mapping of keys to texts.
fn mapping(alloc: Global, members: &[(&str, &str)]) -> Result<Tree, AllocError> {
    let mut pairs = Vec::new(alloc);
    for (key, value) in members {
        pairs.push((Text::new(alloc, key)?, text(alloc, value)?))?;
    }
    Ok(Tree::Map(pairs))
}

/// A mapping of one key to a tree.
fn under(alloc: Global, key: &str, value: Tree) -> Result<Tree, AllocError> {
    let mut pairs = Vec::new(alloc);
    pairs.push((Text::new(alloc, key)?, value))?;
    Ok(Tree::Map(pairs))
}

/// A mapping of two keys to trees.
fn two(alloc: Global, first: (&str, Tree), second: (&str, Tree)) -> Result<Tree, AllocError> {
    let mut pairs = Vec::new(alloc);
    pairs.push((Text::new(alloc, first.0)?, first.1))?;
    pairs.push((Text::new(alloc, second.0)?, second.1))?;
    Ok(Tree::Map(pairs))
}

/// A text in so many sequences.
fn deep(alloc: Global, levels: usize) -> Result<Tree, AllocError> {
    let mut tree = text(alloc, "x")?;
    for _ in 0..levels {
        let mut items = Vec::new(alloc);
        items.push(tree)?;
        tree = Tree::Seq(items);
    }
    Ok(tree)
}

fn string(alloc: Global, text: &str) -> Result<String, AllocError> {
    String::from_str(alloc, text)
}

/// A set in words.
fn set_in_words(alloc: Global, set: &PlainSet) -> Result<String, Fail> {
    let PlainSet { path, value } = set;
    let tree = value.tree();
    Ok(format!(in alloc; "set {path} {tree:?}")?)
}

/// A move in words.
fn move_in_words(alloc: Global, edits: &Move) -> Result<String, Fail> {
    match edits {
        Move::Stays { path, value } => {
            let tree = value.tree();
            Ok(format!(in alloc; "set {path} {tree:?}")?)
        }
        Move::Goes { from, to, value } => {
            let tree = value.tree();
            Ok(format!(in alloc; "delete {from}; set {to} {tree:?}")?)
        }
        Move::Missing { from } => Ok(format!(in alloc; "delete {from}")?),
    }
}

/// Compares a set of the text `x` with parents with the one that is wanted.
fn expect_parents(
    rt: &impl Abort,
    alloc: Global,
    tree: &Config,
    path: &str,
    wanted: &str,
) -> Result<(), Fail> {
    let value = Config::new(alloc, text(alloc, "x")?)?;
    let set = with_parents(alloc, tree, string(alloc, path)?, value)?;
    assert_eq!(rt; set_in_words(alloc, &set)?.as_str(), wanted);
    Ok(())
}

/// Compares an insertion of the text `x` with the set that is wanted.
fn expect_inserted(
    rt: &impl Abort,
    alloc: Global,
    tree: &Config,
    path: &str,
    wanted: &str,
) -> Result<(), Fail> {
    let value = Config::new(alloc, text(alloc, "x")?)?;
    let set = inserted(alloc, tree, string(alloc, path)?, value)?;
    assert_eq!(rt; set_in_words(alloc, &set)?.as_str(), wanted);
    Ok(())
}

/// Compares a move with the edits that are wanted.
fn expect_moved(
    rt: &impl Abort,
    alloc: Global,
    tree: &Config,
    from: &str,
    to: &str,
    wanted: &str,
) -> Result<(), Fail> {
    let edits = moved(alloc, tree, string(alloc, from)?, string(alloc, to)?)?;
    assert_eq!(rt; move_in_words(alloc, &edits)?.as_str(), wanted);
    Ok(())
}

#[test]
fn parents_that_are_missing(rt: HostRuntime) -> Result<(), Fail> {
    let alloc = rt.alloc();
    let list = sequence(alloc, &["p", "q"])?;
    let tree = two(
        alloc,
        ("a", under(alloc, "b", list)?),
        ("t", text(alloc, "u")?),
    )?;
    let tree = Config::new(alloc, tree)?;
    let rows: [(&str, &str); 13] = [
        // all steps but the last are there
        ("", "set  Text(\"x\")"),
        ("/a", "set /a Text(\"x\")"),
        ("/n", "set /n Text(\"x\")"),
        ("/a/n", "set /a/n Text(\"x\")"),
        ("/a/b/-", "set /a/b/- Text(\"x\")"),
        // a key is missing
        ("/n/o", "set /n Map([(\"o\", Text(\"x\"))])"),
        (
            "/a/n/o/p",
            "set /a/n Map([(\"o\", Map([(\"p\", Text(\"x\"))]))])",
        ),
        // the steps behind it become keys as they are, with `~1` as `/` and `~0` as `~`
        (
            "/a/n/0/-",
            "set /a/n Map([(\"0\", Map([(\"-\", Text(\"x\"))]))])",
        ),
        (
            "/a~1b/c~1d/~0",
            "set /a~1b Map([(\"c/d\", Map([(\"~\", Text(\"x\"))]))])",
        ),
        // a text, and an index of no element
        ("/t/n/o", "set /t/n/o Text(\"x\")"),
        ("/a/b/2/n", "set /a/b/2/n Text(\"x\")"),
        ("/a/b/-/n", "set /a/b/-/n Text(\"x\")"),
        // no pointer
        ("a/~n", "set a/~n Text(\"x\")"),
    ];
    for (path, wanted) in rows {
        expect_parents(&rt, alloc, &tree, path, wanted)?;
    }
    Ok(())
}

#[test]
fn values_in_lists(rt: HostRuntime) -> Result<(), Fail> {
    let alloc = rt.alloc();
    let list = sequence(alloc, &["p", "q"])?;
    let tree = two(
        alloc,
        ("a", under(alloc, "b", list)?),
        ("t", text(alloc, "u")?),
    )?;
    let tree = Config::new(alloc, tree)?;
    let rows: [(&str, &str); 13] = [
        (
            "/a/b/0",
            "set /a/b Seq([Text(\"x\"), Text(\"p\"), Text(\"q\")])",
        ),
        (
            "/a/b/1",
            "set /a/b Seq([Text(\"p\"), Text(\"x\"), Text(\"q\")])",
        ),
        (
            "/a/b/2",
            "set /a/b Seq([Text(\"p\"), Text(\"q\"), Text(\"x\")])",
        ),
        (
            "/a/b/-",
            "set /a/b Seq([Text(\"p\"), Text(\"q\"), Text(\"x\")])",
        ),
        // past the end, and tokens that are no index
        ("/a/b/3", "set /a/b/3 Text(\"x\")"),
        (
            "/a/b/18446744073709551616",
            "set /a/b/18446744073709551616 Text(\"x\")",
        ),
        ("/a/b/01", "set /a/b/01 Text(\"x\")"),
        ("/a/b/", "set /a/b/ Text(\"x\")"),
        // no list
        ("", "set  Text(\"x\")"),
        ("/a/0", "set /a/0 Text(\"x\")"),
        ("/t/0", "set /t/0 Text(\"x\")"),
        ("/n/0", "set /n/0 Text(\"x\")"),
        // no pointer
        ("a/b/0", "set a/b/0 Text(\"x\")"),
    ];
    for (path, wanted) in rows {
        expect_inserted(&rt, alloc, &tree, path, wanted)?;
    }
    Ok(())
}

/// RFC 6902, A.1, A.2, A.12 and A.16, and a list that is the whole tree.
#[test]
fn additions_of_the_standard(rt: HostRuntime) -> Result<(), Fail> {
    let alloc = rt.alloc();
    let tree = Config::new(alloc, mapping(alloc, &[("foo", "bar")])?)?;
    expect_inserted(&rt, alloc, &tree, "/baz", "set /baz Text(\"x\")")?;
    expect_inserted(&rt, alloc, &tree, "/baz/bat", "set /baz/bat Text(\"x\")")?;
    let list = sequence(alloc, &["bar", "baz"])?;
    let tree = Config::new(alloc, under(alloc, "foo", list)?)?;
    expect_inserted(
        &rt,
        alloc,
        &tree,
        "/foo/1",
        "set /foo Seq([Text(\"bar\"), Text(\"x\"), Text(\"baz\")])",
    )?;
    let list = sequence(alloc, &["bar"])?;
    let tree = Config::new(alloc, under(alloc, "foo", list)?)?;
    let value = Config::new(alloc, sequence(alloc, &["abc", "def"])?)?;
    let set = inserted(alloc, &tree, string(alloc, "/foo/-")?, value)?;
    let wanted = "set /foo Seq([Text(\"bar\"), Seq([Text(\"abc\"), Text(\"def\")])])";
    assert_eq!(rt; set_in_words(alloc, &set)?.as_str(), wanted);
    let tree = Config::new(alloc, sequence(alloc, &[])?)?;
    expect_inserted(&rt, alloc, &tree, "/0", "set  Seq([Text(\"x\")])")
}

/// The first rows are of RFC 6902, A.6.
#[test]
fn values_that_go(rt: HostRuntime) -> Result<(), Fail> {
    let alloc = rt.alloc();
    let foo = mapping(alloc, &[("bar", "baz"), ("waldo", "fred")])?;
    let qux = mapping(alloc, &[("corge", "grault")])?;
    let tree = Config::new(alloc, two(alloc, ("foo", foo), ("qux", qux))?)?;
    let rows: [(&str, &str, &str); 9] = [
        (
            "/foo/waldo",
            "/qux/thud",
            "delete /foo/waldo; set /qux/thud Text(\"fred\")",
        ),
        (
            "/qux",
            "/foo/qux",
            "delete /qux; set /foo/qux Map([(\"corge\", Text(\"grault\"))])",
        ),
        // into itself: it is refused only when it is performed
        (
            "/qux",
            "/qux/a",
            "delete /qux; set /qux/a Map([(\"corge\", Text(\"grault\"))])",
        ),
        ("/foo/bar", "", "delete /foo/bar; set  Text(\"baz\")"),
        ("/foo/bar", "no", "delete /foo/bar; set no Text(\"baz\")"),
        // to where it is
        ("/foo/waldo", "/foo/waldo", "set /foo/waldo Text(\"fred\")"),
        // nothing is there
        ("/foo/thud", "/qux/thud", "delete /foo/thud"),
        ("/foo/thud", "/foo/thud", "delete /foo/thud"),
        ("foo", "/qux/thud", "delete foo"),
    ];
    for (from, to, wanted) in rows {
        expect_moved(&rt, alloc, &tree, from, to, wanted)?;
    }
    Ok(())
}

/// Whether an edit of a value is refused as too deep.
fn is_too_deep(edit: Result<PlainSet, EditFault>) -> bool {
    matches!(edit, Err(EditFault::TooDeep))
}

#[test]
fn values_that_are_too_deep(rt: HostRuntime) -> Result<(), Fail> {
    let alloc = rt.alloc();
    let tree = Config::new(alloc, mapping(alloc, &[])?)?;
    let value = Config::new(alloc, deep(alloc, DEPTH - 2)?)?;
    let _ = with_parents(alloc, &tree, string(alloc, "/a/b")?, value)?;
    let value = Config::new(alloc, deep(alloc, DEPTH - 2)?)?;
    let edit = with_parents(alloc, &tree, string(alloc, "/a/b/c")?, value);
    assert!(rt; is_too_deep(edit));
    let value = Config::new(alloc, deep(alloc, DEPTH - 1)?)?;
    let _ = with_parents(alloc, &tree, string(alloc, "/a")?, value)?;
    let tree = Config::new(alloc, sequence(alloc, &[])?)?;
    let value = Config::new(alloc, deep(alloc, DEPTH - 2)?)?;
    let _ = inserted(alloc, &tree, string(alloc, "/0")?, value)?;
    let value = Config::new(alloc, deep(alloc, DEPTH - 1)?)?;
    let edit = inserted(alloc, &tree, string(alloc, "/0")?, value);
    assert!(rt; is_too_deep(edit));
    Ok(())
}
