// The about of a command on its lines: the last pair of a command that changes configurations.
ghost use Rattle.std.specs.Prelude.{◌≡◌, codes, true, false, IfOk, IfSome, IsTrue};
ghost use Rattle.conf_session.specs.Prelude.{members_of, plain_in_style, long_key, tree_of};
ghost use Rattle.conf_session.specs.CommandLines.{ArePairLines, IsAboutLines, IsPairLine};

use crate::field_lines::{is_end, line_value};
use conf_about::About;
use conf_record::lines::cut_line;
use std::alloc::{AllocError, Global};
use yaml_tree::{Text, Tree};
use yaml_writer::{ScalarStyle, key_style};

/// How many pairs an about usually has: `by`, `when` and `why`.
const USUAL_PAIRS: usize = 3;

/// The about on these lines, with the closing line after it. Each of its pairs is on a line after two spaces, as the
/// one style has it: a plain key, and a text as [`line_value`] takes it. `None` says nothing of the lines. It fails
/// only if memory runs out.
pub(crate) fn about_in(alloc: Global, lines: &str) -> Result<Option<About>, AllocError>
    ensures { IfOk result (λ found. IfSome found
        (λ about. IsAboutLines lines.now (tree_of about))) }
{
    let Some(lines) = lines.strip_prefix("about:\n") else {
        return Ok(None);
    };
    let Some(pairs) = pairs_in(alloc, lines)? else {
        return Ok(None);
    };
    match About::of(Tree::Map(pairs)) {
        Ok(about) => Ok(Some(about)),
        Err(_) => Ok(None),
    }
}

/// The pairs on these lines, up to the closing line.
fn pairs_in(alloc: Global, lines: &str) -> Result<Option<Vec<(Text, Tree)>>, AllocError>
    ensures { IfOk result (λ found. IfSome found
        (λ pairs. ArePairLines lines.now (members_of pairs.items) (codes "...\n"))) }
{
    let mut pairs = Vec::with_capacity(alloc, USUAL_PAIRS)?;
    let mut left = lines;
    while !is_end(left) {
        let Some((key, text, after)) = cut_pair(left) else {
            return Ok(None);
        };
        let key = Text::new(alloc, key)?;
        let text = Text::new(alloc, text)?;
        pairs.push((key, Tree::Text(text)))?;
        left = after;
    }
    Ok(Some(pairs))
}

/// The key and the text of the pair that the lines begin with, and the lines after it.
fn cut_pair(lines: &str) -> Option<(&str, &str, &str)>
    ensures { IfSome result (λ cut. IsPairLine lines.now cut.0.now cut.1.now cut.2.now) }
{
    let (pair, rest) = cut_line(lines, "  ")?;
    let (key, line) = pair.split_once(": ")?;
    if !is_plain_key(key) {
        return None;
    }
    let text = line_value(line)?;
    Some((key, text, rest))
}

/// Whether the one style writes a key as it is, before its `:`.
fn is_plain_key(key: &str) -> bool
    ensures plain { IsTrue result → plain_in_style key.now ≡ true }
    ensures short { IsTrue result → long_key key.now ≡ false }
{
    match key_style(key) {
        ScalarStyle::Plain => true,
        _ => false,
    }
}
