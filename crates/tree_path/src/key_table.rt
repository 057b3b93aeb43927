// The places of the keys of one mapping, by a hash of each key.
ghost use Rattle.std.specs.Prelude.{◌≡◌, ◌<◌, ◌≤◌, ◌+◌, ◌-◌, ◌++◌, ℕ, true, Some, IfOk, IfSome, OnOk, List, [], ◌∷◌};
ghost use Rattle.std.specs.Prelude.{length};
ghost use Rattle.tree_path.specs.Prelude.{remove, chars, members_distinct, members_of};
ghost use Rattle.tree_path.specs.Steps.{key_place};
ghost use Rattle.tree_path.specs.Chains.{KeepsOthers, LeadsTo};
ghost use Rattle.tree_path.specs.Tables.{Lists, Rise, StandsAt, bucket_of, keys_of, on_chain, place_at};

use std::alloc::{AllocError, Global};
use yaml_data::{Text, Tree};

/// By what the hash of a key is multiplied after each character.
const FACTOR: u32 = 0x0100_0193;

/// Where the keys of a mapping are, and which there are. Each key is in the bucket that its hash says, and is compared
/// with the pair at its place when it is looked up.
///
/// Keys have numbers, which grow with their places. A removed key's number isn't given again, so the place of a key is
/// its number less the count of removed numbers below.
#[derive(Debug, Drop)]
pub struct KeyTable {
    /// For each bucket one more than the number of its newest key; 0 if it has none.
    newest: Vec<u32>,
    /// For each number one more than that of the key before it on its bucket's chain; 0 for the first.
    before: Vec<u32>,
    /// The removed numbers, in order.
    removed: Vec<u32>,
}

impl KeyTable {
    /// The table of the keys of a mapping that isn't empty. It fails if memory runs out.
    pub(crate) fn of_pairs(alloc: Global, pairs: &[(Text, Tree)]) -> Result<KeyTable, AllocError>
        requires { 0 < length pairs.now }
        ensures { IfOk result (λ table. Lists table (keys_of (members_of pairs.now))) }
    {
        let mut table = KeyTable::with_room(alloc, pairs.len())?;
        for (place, (key, _)) in pairs.iter().enumerate() {
            table.add(key.as_str())?;
        }
        Ok(table)
    }

    /// A table of no keys, with room for `count` keys and for as many new ones. `count` isn't 0.
    fn with_room(alloc: Global, count: usize) -> Result<KeyTable, AllocError>
        requires { 0 < count }
        ensures { IfOk result (λ table. Lists table []) }
    {
        let mut newest = Vec::new(alloc);
        newest.resize(count.saturating_mul(2), 0)?;
        let before = Vec::with_capacity(alloc, count)?;
        Ok(KeyTable {
            newest,
            before,
            removed: Vec::new(alloc),
        })
    }

    /// The place of a key among the pairs of the mapping; `None` if no pair has it.
    pub(crate) fn find(&self, pairs: &[(Text, Tree)], key: &str) -> Option<usize>
        requires distinct { members_distinct (members_of pairs.now) ≡ true }
        requires lists { Lists self.now (keys_of (members_of pairs.now)) }
        ensures { result ≡ key_place (chars key.now) pairs.now }
    {
        let mut link = self.newest[self.bucket(key)];
        while link > 0 {
            let place = self.place_of((link - 1) as usize);
            if is_at(pairs, place, key) {
                return Some(place);
            }
            link = self.link_after(link);
        }
        None
    }

    /// The link that comes after another one on a chain, which isn't the end; 0 at the end.
    fn link_after(&self, link: u32) -> u32
        requires { 0 < link }
        ensures falls { result < link }
        ensures leads { 0 < result → LeadsTo self.now.before.items (link - 1) result }
        ensures kept { (n : ℕ) → on_chain self.now.before.items link link n ≡ true
            → (n ≡ link - 1 → ⊥)
            → on_chain self.now.before.items result result n ≡ true }
    {
        let number = (link - 1) as usize;
        if number >= self.before.len() {
            return 0;
        }
        let next = self.before[number];
        if next >= link {
            return 0;
        }
        next
    }

    /// Adds a new last key. It fails if memory runs out, or the numbers do.
    pub(crate) fn add(&mut self, key: &str) -> Result<(), AllocError>
        requires { 0 < length self.old.newest.items }
        ensures { OnOk result ((keys : List (List ℕ)) → Lists self.old keys
            → Lists self.new (keys ++ chars key.now ∷ [])) }
    {
        let Ok(link) = u32::try_from(self.before.len() + 1) else {
            return Err(AllocError);
        };
        let bucket = self.bucket(key);
        self.before.push(self.newest[bucket])?;
        self.newest[bucket] = link;
        Ok(())
    }

    /// Removes a key, which is at this place. It fails if memory runs out.
    pub(crate) fn remove(&mut self, place: usize, key: &str) -> Result<(), AllocError>
        requires { 0 < length self.old.newest.items }
        ensures { OnOk result ((keys : List (List ℕ)) → Lists self.old keys → place < length keys
            → Lists self.new (remove keys place)) }
    {
        let before = self.removed_before(place);
        let Ok(number) = u32::try_from(place.saturating_add(before)) else {
            return Err(AllocError);
        };
        self.removed.insert(before, number)?;
        let bucket = self.bucket(key);
        self.unlink(bucket, number as usize);
        Ok(())
    }

    /// Takes a number off the chain of a bucket, if it is on it.
    fn unlink(&mut self, bucket: usize, number: usize)
        requires { bucket < length self.old.newest.items }
        ensures removed { self.new.removed ≡ self.old.removed }
        ensures chains { KeepsOthers number self.old self.new }
    {
        if number >= self.before.len() {
            return;
        }
        let next = self.before[number];
        if self.newest[bucket] as usize == number + 1 {
            self.newest[bucket] = next;
            return;
        }
        if let Some(newer) = self.newer_than(bucket, number) {
            self.before[newer] = next;
        }
    }

    /// The number on the chain of a bucket from which a link leads to this one; `None` if none does.
    fn newer_than(&self, bucket: usize, number: usize) -> Option<usize>
        requires bucket { bucket < length self.now.newest.items }
        requires number { number < length self.now.before.items }
        ensures { IfSome result (λ newer. LeadsTo self.now.before.items newer (number + 1)) }
    {
        let mut link = self.newest[bucket];
        while link > 0 {
            let next = self.link_after(link);
            if next as usize == number + 1 {
                return Some((link - 1) as usize);
            }
            link = next;
        }
        None
    }

    /// Whether the table should be made anew: it has given out more numbers than it has buckets.
    pub(crate) fn is_worn(&self) -> bool {
        self.before.len() > self.newest.len()
    }

    /// The bucket of a key.
    fn bucket(&self, key: &str) -> usize
        requires { 0 < length self.now.newest.items }
        ensures bucket { result ≡ bucket_of (length self.now.newest.items) (chars key.now) }
        ensures inside { result < length self.now.newest.items }
    {
        let mut hash: u32 = 0;
        for c in key.chars() {
            hash = hash.wrapping_add(c as u32).wrapping_mul(FACTOR);
        }
        hash as usize % self.newest.len()
    }

    /// The place of the key with a number.
    fn place_of(&self, number: usize) -> usize
        ensures { (limit : ℕ) → Rise 0 limit self.now.removed.items
            → result ≡ place_at self.now.removed.items number }
    {
        let mut low = 0;
        let mut high = self.removed.len();
        while low < high {
            let middle = low + (high - low) / 2;
            if (self.removed[middle] as usize) < number {
                low = middle + 1;
            } else {
                high = middle;
            }
        }
        number.saturating_sub(low)
    }

    /// How many removed numbers are below that of the key at a place.
    fn removed_before(&self, place: usize) -> usize
        ensures inside { result ≤ length self.now.removed.items }
        ensures stands { StandsAt self.now.removed.items (place + result) result }
    {
        let mut low = 0;
        let mut high = self.removed.len();
        while low < high {
            let middle = low + (high - low) / 2;
            if (self.removed[middle] as usize).saturating_sub(middle) <= place {
                low = middle + 1;
            } else {
                high = middle;
            }
        }
        low
    }
}

/// Whether the pair at a place has this key.
fn is_at(pairs: &[(Text, Tree)], place: usize, key: &str) -> bool
    requires { members_distinct (members_of pairs.now) ≡ true }
    ensures found { result ≡ true → key_place (chars key.now) pairs.now ≡ Some place }
    ensures other { key_place (chars key.now) pairs.now ≡ Some place → result ≡ true }
{
    if place >= pairs.len() {
        return false;
    }
    pairs[place].0.as_str() == key
}
