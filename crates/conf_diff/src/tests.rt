// The edits between known states, by hand, as the texts that the word `batch` takes.
use crate::{config_edits, edits_text, state_edits};
use conf_state::{Command, Room, State, step};
use std::alloc::{AllocError, Global};
use std::process::Abort;
use std::test::Fail;
use yaml_config::Config;
use yaml_data::{Text, Tree};

fn text(alloc: Global, text: &str) -> Result<Tree, AllocError> {
    Ok(Tree::Text(Text::new(alloc, text)?))
}

/// A mapping of keys to texts, of words `KEY=TEXT`.
fn mapping(alloc: Global, words: &str) -> Result<Tree, AllocError> {
    let mut pairs = Vec::new(alloc);
    for word in words.split(' ') {
        if let Some((key, value)) = word.split_once('=') {
            pairs.push((Text::new(alloc, key)?, text(alloc, value)?))?;
        }
    }
    Ok(Tree::Map(pairs))
}

/// The configuration of a tree within the limits.
fn config(rt: &impl Abort, alloc: Global, tree: Tree) -> Config {
    match Config::new(alloc, tree) {
        Ok(config) => config,
        Err(_) => panic!(rt; "a configuration was not made"),
    }
}

/// A state with these configurations: a line for each has its name and words `KEY=TEXT`.
fn state(rt: &impl Abort, alloc: Global, lines: &str) -> Result<State, Fail> {
    let mut parts = Vec::new(alloc);
    for line in lines.lines() {
        let (name, words) = line.split_once(' ').unwrap_or((line, ""));
        let tree = mapping(alloc, words)?;
        parts.push((String::from_str(alloc, name)?, config(rt, alloc, tree)))?;
    }
    match State::from_parts(alloc, parts, 0)? {
        Some(state) => Ok(state),
        None => panic!(rt; "a state was not made"),
    }
}

/// Performs the edits between two states, as a batch.
fn perform(rt: &impl Abort, alloc: Global, first: &mut State, second: &State) -> Result<(), Fail> {
    let edits = state_edits(alloc, first, second)?;
    if edits.is_empty() {
        return Ok(());
    }
    if step(alloc, first, Command::Batch { edits }, Room::Enough).is_err() {
        panic!(rt; "a batch was refused");
    }
    Ok(())
}

/// Compares the edits between two states with those that are wanted, and makes the second state of the first by them.
fn expect(
    rt: &impl Abort,
    alloc: Global,
    first: &str,
    second: &str,
    wanted: &str,
) -> Result<(), Fail> {
    let mut first = state(rt, alloc, first)?;
    let second = state(rt, alloc, second)?;
    let text = edits_text(alloc, &state_edits(alloc, &first, &second)?)?;
    assert_eq!(rt; text.as_str(), wanted);
    perform(rt, alloc, &mut first, &second)?;
    let mut made = String::new(alloc);
    first.write_configs(&mut made)?;
    let mut meant = String::new(alloc);
    second.write_configs(&mut meant)?;
    assert_eq!(rt; made.as_str(), meant.as_str());
    Ok(())
}

#[test]
fn states(rt: HostRuntime) -> Result<(), Fail> {
    let alloc = rt.alloc();
    expect(&rt, alloc, "", "", "[]\n")?;
    expect(&rt, alloc, "app port=80", "app port=80", "[]\n")?;
    // a value is changed, a key is new, another is gone
    expect(
        &rt,
        alloc,
        "app a=1 b=2 c=3",
        "app a=x c=3 d=4",
        "- set: app\n  path: \"/a\"\n  value: x\n- delete: app\n  path: \"/b\"\n\
        - set: app\n  path: \"/d\"\n  value: \"4\"\n",
    )?;
    // a configuration is new, another is gone
    expect(
        &rt,
        alloc,
        "",
        "app port=80",
        "- import: app\n  tree:\n    port: \"80\"\n",
    )?;
    expect(
        &rt,
        alloc,
        "app port=80",
        "",
        "- delete: app\n  path: \"\"\n",
    )?;
    // one in the middle is gone, and comes back as the last
    expect(
        &rt,
        alloc,
        "a\nb\nc k=1",
        "a\nc k=2\nb",
        "- delete: b\n  path: \"\"\n- set: c\n  path: \"/k\"\n  value: \"2\"\n- import: b\n  tree: {}\n",
    )?;
    // no name stays where one comes before all
    expect(
        &rt,
        alloc,
        "b",
        "a\nb",
        "- delete: b\n  path: \"\"\n- import: a\n  tree: {}\n- import: b\n  tree: {}\n",
    )
}

#[test]
fn configurations(rt: HostRuntime) -> Result<(), Fail> {
    let alloc = rt.alloc();
    let tree = mapping(alloc, "k=1")?;
    let one = config(&rt, alloc, tree);
    let other = config(&rt, alloc, text(alloc, "x")?);
    let rows: [(Option<&Config>, Option<&Config>, &str); 5] = [
        (None, None, "[]\n"),
        (None, Some(&other), "- import: app\n  tree: x\n"),
        (Some(&one), None, "- delete: app\n  path: \"\"\n"),
        (
            Some(&one),
            Some(&other),
            "- set: app\n  path: \"\"\n  value: x\n",
        ),
        (Some(&one), Some(&one), "[]\n"),
    ];
    for (first, second, wanted) in rows {
        let edits = config_edits(alloc, "app", first, second)?;
        assert_eq!(rt; edits_text(alloc, &edits)?.as_str(), wanted);
    }
    Ok(())
}

/// A mapping of `count` keys from `k10` on, each to this text.
fn keys(alloc: Global, count: u8, value: &str) -> Result<Tree, Fail> {
    let mut pairs = Vec::new(alloc);
    for number in 0..count {
        let key = format!(in alloc; "k{}", 10 + u64::from(number))?;
        pairs.push((Text::new(alloc, &key)?, text(alloc, value)?))?;
    }
    Ok(Tree::Map(pairs))
}

#[test]
fn an_import_is_shorter(rt: HostRuntime) -> Result<(), Fail> {
    let alloc = rt.alloc();
    // a set of a key has 37 bytes, and its pair in an import 11 after the 22 of `- import: app` and `  tree:`
    let rows: [(u8, u64); 3] = [(27, 27 * 37), (28, 22 + 28 * 11), (40, 22 + 40 * 11)];
    for (count, wanted) in rows {
        let first = config(&rt, alloc, keys(alloc, count, "a")?);
        let second = config(&rt, alloc, keys(alloc, count, "b")?);
        let edits = config_edits(alloc, "app", Some(&first), Some(&second))?;
        assert_eq!(rt; edits_text(alloc, &edits)?.len() as u64, wanted);
    }
    Ok(())
}

#[test]
fn edits_shorter_than_an_import_stay(rt: HostRuntime) -> Result<(), Fail> {
    let alloc = rt.alloc();
    let value = "aaaaaaaaaaaaaaaaaaaaaaaaaaaaaaaaaaaaaaaaaaaaaaaaaa";
    let first = config(&rt, alloc, keys(alloc, 60, value)?);
    let mut tree = keys(alloc, 60, value)?;
    if let Tree::Map(pairs) = &mut tree {
        for (_, value) in pairs.iter_mut().take(30) {
            *value = text(alloc, "b")?;
        }
    }
    let second = config(&rt, alloc, tree);
    let edits = config_edits(alloc, "app", Some(&first), Some(&second))?;
    // 30 sets of 37 bytes; an import has 22, 30 pairs of 11 and 30 of 60
    assert_eq!(rt; edits_text(alloc, &edits)?.len() as u64, 30 * 37);
    Ok(())
}
