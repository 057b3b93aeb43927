// The keys of the mappings that are being read.
ghost use Rattle.std.specs.Prelude.{◌≡◌, ◌++◌, [], ◌∷◌, take, drop, length, true, IfOk, OnOk, IsTrue};
ghost use Rattle.yaml_styled.specs.Prelude.{chars, IsUtf8, same_text, has_key, keys_differ};
ghost use Rattle.yaml_styled.specs.Names.{named, IsBelow};

use crate::miss::Miss;
use std::alloc::{AllocError, Global};
use yaml_data::Text;

/// The most keys that are compared each with each.
const FEW: usize = 8;

/// The keys of the mappings that are being read, those of an inner mapping after those of the mapping that holds it.
#[derive(Drop)]
pub(crate) struct OpenKeys<'t> {
    keys: Vec<&'t str>,
}

impl<'t> OpenKeys<'t> {
    /// No keys.
    pub(crate) fn new(alloc: Global) -> OpenKeys<'t> {
        OpenKeys {
            keys: Vec::new(alloc),
        }
    }

    /// How many keys there are.
    #[inline]
    pub(crate) fn count(&self) -> usize
        ensures { result ≡ length self.now.keys.items }
    {
        self.keys.len()
    }

    /// Adds a key of the innermost mapping.
    #[inline]
    pub(crate) fn add(&mut self, key: &'t str) -> Result<(), AllocError>
        ensures added { OnOk result
            (self.new.keys.items ≡ self.old.keys.items ++ key.entry ∷ []) }
        ensures text { OnOk result (IsUtf8 key.entry.now) }
    {
        self.keys.push(key)?;
        Ok(())
    }

    /// Takes off the keys of the innermost mapping, those from this place on, if they differ. Otherwise it fails, as it
    /// does if memory runs out.
    pub(crate) fn close(&mut self, alloc: Global, from: usize) -> Result<(), Miss>
        ensures left { OnOk result (self.new.keys.items ≡ take from self.old.keys.items) }
        ensures differ { OnOk result
            (keys_differ (named (drop from self.old.keys.items)) ≡ true) }
    {
        let Some(own) = self.keys.get(from..) else {
            return Err(Miss::OtherForm);
        };
        if !do_differ(alloc, own)? {
            return Err(Miss::OtherForm);
        }
        self.keys.truncate(from);
        Ok(())
    }
}

/// Whether keys differ. Few keys, or keys that ascend, take no memory. It fails only if memory runs out.
fn do_differ(alloc: Global, keys: &[&str]) -> Result<bool, AllocError>
    ensures { IfOk result (λ answer. IsTrue answer → keys_differ (named keys.now) ≡ true) }
{
    if keys.len() <= FEW {
        return Ok(few_differ(keys));
    }
    if do_ascend(keys) {
        return Ok(true);
    }
    many_differ(alloc, keys)
}

/// Whether a few keys differ. Each is compared with those after it.
fn few_differ(keys: &[&str]) -> bool
    ensures { result ≡ keys_differ (named keys.now) }
{
    for place in 0..keys.len() {
        if is_among(keys[place], &keys[place + 1..]) {
            return false;
        }
    }
    true
}

/// Whether a key is among others.
fn is_among(key: &str, others: &[&str]) -> bool
    ensures { result ≡ has_key (chars key.now) (named others.now) }
{
    for other in others {
        if are_same(key, other) {
            return true;
        }
    }
    false
}

/// Whether two keys are the same. Most keys that differ have different lengths.
#[inline(always)]
fn are_same(key: &str, other: &str) -> bool
    ensures { result ≡ same_text (chars key.now) (chars other.now) }
{
    if key.len() != other.len() {
        return false;
    }
    have_same_bytes(key, other)
}

/// Whether two keys have the same bytes.
#[inline(never)]
fn have_same_bytes(key: &str, other: &str) -> bool
    ensures { result ≡ same_text (chars key.now) (chars other.now) }
{
    other == key
}

/// Whether each key is less than the next. Such keys differ.
fn do_ascend(keys: &[&str]) -> bool
    ensures { IsTrue result → keys_differ (named keys.now) ≡ true }
{
    for next in 1..keys.len() {
        if !is_below(keys[next - 1], keys[next]) {
            return false;
        }
    }
    true
}

/// Whether a key is less than another, by its bytes.
#[inline(always)]
fn is_below(key: &str, other: &str) -> bool
    ensures { IsTrue result → IsBelow key.now other.now }
{
    key < other
}

/// Whether many keys differ.
fn many_differ(alloc: Global, keys: &[&str]) -> Result<bool, AllocError>
    ensures { IfOk result (λ answer. answer ≡ keys_differ (named keys.now)) }
{
    let mut pairs = Vec::with_capacity(alloc, keys.len())?;
    for key in keys {
        let text = Text::new(alloc, key)?;
        pairs.push((text, ()))?;
    }
    yaml_data::keys_differ(alloc, &pairs)
}
