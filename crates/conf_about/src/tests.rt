// Abouts of known words and trees, with each limit and the first value past it, by hand.
use crate::{About, AboutFault};
use std::alloc::{AllocError, Global};
use std::fmt::Write;
use std::process::Abort;
use std::test::Fail;
use yaml_data::{Text, Tree};

/// The pairs of an about, each with a `;` after it, or the name of the fault.
fn outcome(alloc: Global, made: Result<About, AboutFault>) -> Result<String, Fail> {
    let mut shown = String::new(alloc);
    match made {
        Ok(about) => {
            for (key, text) in about.pairs() {
                write!(shown, "{key}={text};")?;
            }
        }
        Err(fault) => write!(shown, "{fault}")?,
    }
    Ok(shown)
}

/// Compares what words say with what is wanted.
fn expect(rt: &impl Abort, alloc: Global, words: &[&str], wanted: &str) -> Result<(), Fail> {
    let found = outcome(alloc, About::of_words(alloc, words))?;
    assert_eq!(rt; found.as_str(), wanted);
    Ok(())
}

#[test]
fn words(rt: HostRuntime) -> Result<(), Fail> {
    let alloc = rt.alloc();
    let rows: [(&[&str], &str); 13] = [
        (&["by=ann"], "by=ann;"),
        // the order is kept, the first `=` ends the key, and a text may be empty
        (&["why=a=b", "by="], "why=a=b;by=;"),
        (&["by==ann"], "by==ann;"),
        (&["\u{e9}=\u{1f600}"], "\u{e9}=\u{1f600};"),
        (&[], "NoKey"),
        (&["by"], "NoKey"),
        (&["=ann"], "NoKey"),
        // a word without `=` comes before all else
        (&["by=ann", "by=bob", "why"], "NoKey"),
        (&["by=ann", "by=bob"], "Twice"),
        (&["by=ann", "why=it was wrong", "by=ann"], "Twice"),
        // 16 pairs, and 17
        (
            &[
                "a=", "b=", "c=", "d=", "e=", "f=", "g=", "h=", "i=", "j=", "k=", "l=", "m=", "n=",
                "o=", "p=",
            ],
            "a=;b=;c=;d=;e=;f=;g=;h=;i=;j=;k=;l=;m=;n=;o=;p=;",
        ),
        (
            &[
                "a=", "b=", "c=", "d=", "e=", "f=", "g=", "h=", "i=", "j=", "k=", "l=", "m=", "n=",
                "o=", "p=", "q=",
            ],
            "TooMany",
        ),
        // too many come before twice
        (
            &[
                "a=", "a=", "c=", "d=", "e=", "f=", "g=", "h=", "i=", "j=", "k=", "l=", "m=", "n=",
                "o=", "p=", "q=",
            ],
            "TooMany",
        ),
    ];
    for (words, wanted) in rows {
        expect(&rt, alloc, words, wanted)?;
    }
    Ok(())
}

#[test]
fn pairs_are_added(rt: HostRuntime) -> Result<(), Fail> {
    let alloc = rt.alloc();
    let mut about = About::of_words(alloc, &["by=ann"])?;
    assert!(rt; about.add(alloc, "why", "a=b").is_ok());
    assert_eq!(rt; about.add(alloc, "by", "bob"), Err(AboutFault::Twice));
    assert_eq!(rt; about.add(alloc, "", "bob"), Err(AboutFault::NoKey));
    assert!(rt; about.add(alloc, "when", "").is_ok());
    assert_eq!(rt;
        outcome(alloc, Ok(about))?.as_str(),
        "by=ann;why=a=b;when=;"
    );
    Ok(())
}

/// A text so many times.
fn repeated(alloc: Global, text: &str, count: u16) -> Result<String, AllocError> {
    let mut whole = String::new(alloc);
    for _ in 0..count {
        whole.push_str(text)?;
    }
    Ok(whole)
}

#[test]
fn limits(rt: HostRuntime) -> Result<(), Fail> {
    let alloc = rt.alloc();
    let rows: [(&str, u16, &str, u16, Option<AboutFault>); 12] = [
        // characters of a key, of one, two and four bytes
        ("a", 64, "", 0, None),
        ("a", 65, "", 0, Some(AboutFault::LongKey)),
        ("\u{e9}", 64, "", 0, None),
        ("\u{e9}", 65, "", 0, Some(AboutFault::LongKey)),
        ("\u{1f600}", 64, "", 0, None),
        ("\u{1f600}", 65, "", 0, Some(AboutFault::LongKey)),
        // `why: "`, the text, `"` and a line feed are 8 bytes more than the text
        ("why", 1, "a", 4088, None),
        ("why", 1, "a", 4089, Some(AboutFault::TooLarge)),
        ("why", 1, "\u{e9}", 2044, None),
        ("whys", 1, "\u{e9}", 2044, Some(AboutFault::TooLarge)),
        // an escape has two bytes
        ("why", 1, "\\", 2044, None),
        ("why", 1, "\\", 2045, Some(AboutFault::TooLarge)),
    ];
    for (key, keys, text, texts, wanted) in rows {
        let key = repeated(alloc, key, keys)?;
        let text = repeated(alloc, text, texts)?;
        let word = format!(in alloc; "{key}={text}")?;
        match About::of_words(alloc, &[word.as_str()]) {
            Ok(about) => {
                assert!(rt; wanted.is_none(), "{keys} {texts}");
                assert_eq!(rt; about.get(&key), Some(text.as_str()));
            }
            Err(fault) => assert_eq!(rt; Some(fault), wanted, "{keys} {texts}"),
        }
    }
    Ok(())
}

/// A mapping of keys to texts, but `[]` stands for an empty sequence.
fn mapping(alloc: Global, members: &[(&str, &str)]) -> Result<Tree, AllocError> {
    let mut pairs = Vec::new(alloc);
    for (key, value) in members {
        let value = if *value == "[]" {
            Tree::Seq(Vec::new(alloc))
        } else {
            Tree::Text(Text::new(alloc, value)?)
        };
        pairs.push((Text::new(alloc, key)?, value))?;
    }
    Ok(Tree::Map(pairs))
}

/// The about that a tree is, or the fault alone.
fn of_tree(tree: Tree) -> Result<About, AboutFault> {
    match About::of(tree) {
        Ok(about) => Ok(about),
        Err((_, fault)) => Err(fault),
    }
}

#[test]
fn trees(rt: HostRuntime) -> Result<(), Fail> {
    let alloc = rt.alloc();
    let rows: [(&[(&str, &str)], &str); 6] = [
        (&[("by", "ann"), ("when", "today")], "by=ann;when=today;"),
        (&[], "NoKey"),
        (&[("by", "[]")], "NoText"),
        // the first pair with a fault counts, and its key before its value
        (&[("by", "[]"), ("", "ann")], "NoText"),
        (&[("", "[]"), ("by", "[]")], "NoKey"),
        (&[("by", "ann"), ("by", "ann")], "Twice"),
    ];
    for (members, wanted) in rows {
        let made = of_tree(mapping(alloc, members)?);
        assert_eq!(rt; outcome(alloc, made)?.as_str(), wanted);
    }
    let text = of_tree(Tree::Text(Text::empty()));
    assert_eq!(rt; outcome(alloc, text)?.as_str(), "NoMapping");
    let sequence = of_tree(Tree::Seq(Vec::new(alloc)));
    assert_eq!(rt; outcome(alloc, sequence)?.as_str(), "NoMapping");
    Ok(())
}

#[test]
fn texts_under_keys(rt: HostRuntime) -> Result<(), Fail> {
    let alloc = rt.alloc();
    let about = About::of_words(alloc, &["by=ann", "why=a=b"])?;
    let rows = [
        ("by", Some("ann")),
        ("why", Some("a=b")),
        ("when", None),
        ("b", None),
        ("", None),
    ];
    for (key, wanted) in rows {
        assert_eq!(rt; about.get(key), wanted);
    }
    let tree = format!(in alloc; "{:?}", about.tree())?;
    assert_eq!(rt;
        tree.as_str(),
        "Map([(\"by\", Text(\"ann\")), (\"why\", Text(\"a=b\"))])"
    );
    Ok(())
}
