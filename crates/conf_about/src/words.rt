// An about that words say.
ghost use Rattle.std.specs.Prelude.{◌≡◌, ◌≢◌, Some, None, IfOk, IfErr, map, MatchOption};
ghost use Rattle.conf_about.specs.Prelude.{chars, members_of};
ghost use Rattle.conf_about.specs.AboutWords.{members_in, pair_in};

use crate::fault::AboutFault;
use std::alloc::Global;
use yaml_data::{Text, Tree};

/// The pairs of words `KEY=TEXT`, in order. The first `=` ends the key.
///
/// # Errors
/// `NoKey` if a word has no `=`. `OutOfMemory` may come at any word.
pub(crate) fn pairs_of(alloc: Global, words: &[&str]) -> Result<Vec<(Text, Tree)>, AboutFault>
    ensures ok { IfOk result (λ pairs.
        members_in (map (λ word. chars word.now) words.now) ≡ Some (members_of pairs.items)) }
    ensures refused { IfErr result (λ fault. fault ≢ AboutFault.OutOfMemory
        → (fault ≡ AboutFault.NoKey)
        × (members_in (map (λ word. chars word.now) words.now) ≡ None)) }
{
    let mut pairs = Vec::with_capacity(alloc, words.len())?;
    for word in words {
        let Some((key, text)) = split(word) else {
            return Err(AboutFault::NoKey);
        };
        let key = Text::new(alloc, key)?;
        let text = Text::new(alloc, text)?;
        pairs.push((key, Tree::Text(text)))?;
    }
    Ok(pairs)
}

/// What stands before the first `=` of a word, and what behind it.
fn split(word: &str) -> Option<(&str, &str)>
    ensures { MatchOption result (pair_in (chars word.now) ≡ None)
        (λ pair. pair_in (chars word.now) ≡ Some (chars pair.0.now, chars pair.1.now)) }
{
    match word.split_once('=') {
        Some((key, text)) => Some((key, text)),
        None => None,
    }
}
