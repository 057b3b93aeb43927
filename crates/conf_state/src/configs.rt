// Configurations by name, in the order in which they were put.
ghost use Rattle.std.specs.Prelude.{◌≡◌, ◌+◌, ◌<◌, ◌≤◌, ◌↔◌, IsTrue, [], filter, is_some, length, true, Some, None};
ghost use Rattle.std.specs.Prelude.{IsOk, IfOk, OnOk, OnErr};
ghost use Rattle.conf_state.specs.Prelude.{sem, at_most, lookup};
ghost use Rattle.std.specs.Map.Iter.{TakesFirst, deref_pair};
ghost use Rattle.std.specs.Option.{option_copied, option_copied_mut};
ghost use Rattle.std.specs.String.{string_eq};
ghost use Rattle.indexmap.specs.IndexMap.{IsUnique, spare};
ghost use Rattle.conf_state.specs.Configs.{is_name, put_under, put_each, cut_from, cut_each};
ghost use Rattle.conf_state.specs.Kept.{entries_of, ArePlain};
ghost use Rattle.conf_state.specs.Lends.{lends_config};
ghost use Rattle.conf_state.specs.Places.{present};
ghost use Rattle.conf_state.specs.States.{names_of, names_differ};

use indexmap::map::Iter;
use indexmap::{IndexMap, IndexSet};
use std::alloc::{AllocError, Global};
use std::marker::Model;
use yaml_config::Config;

/// A place for each name, in order. It is empty if the name's configuration was removed.
type Places = IndexMap<String, Option<Config>>;

/// Configurations by name, in the order in which they were put. Contracts see the list of them, each with its name.
///
/// A configuration that is removed leaves an empty place, so that the others needn't move. All empty places are closed
/// at once as soon as half of the places, rounded down, are empty, or before a name whose place is empty is put again,
/// last.
#[derive(Drop)]
pub(crate) struct Configs {
    places: Places,
    /// How many configurations were removed since the empty places were last closed for their number.
    removed: usize,
}

impl Model for Configs {
    ghost use Rattle.std.specs.Prelude.{List, String};
    ghost use Rattle.std.specs.Coded.{codes};
    ghost use Rattle.std.specs.declared.alloc.Global.{Global};
    ghost use Rattle.yaml_data.specs.declared.tree.Tree.{Tree};
    ghost use Rattle.yaml_data.specs.contracts.tree.Tree as trees;

    ghost Value = { List (String Global × Tree) };

    ghost coded = { Prim.hlevel (codes, trees.the_row.coded) };

    ghost use Rattle.std.specs.List.{IsDistinct};
    ghost use Rattle.std.specs.Map.{keys_of};
    ghost use Rattle.std.specs.String.{string_eq};
    ghost use Rattle.conf_state.specs.Places.{present};

    ghost view = { λ c. present c.places.entries };

    ghost invariant = { λ c. IsDistinct string_eq (keys_of c.places.entries) };
}

impl Configs {
    /// Returns no configurations. It takes no memory.
    pub fn new(alloc: Global) -> Configs
        ensures { result ≡ [] }
    {
        Configs {
            places: IndexMap::new(alloc),
            removed: 0,
        }
    }

    /// Returns whether there are no configurations.
    pub fn is_empty(&self) -> bool
        ensures { IsTrue result ↔ (length self.now ≡ 0) }
    {
        self.iter().next().is_none()
    }

    /// Returns the configuration under a name; `None` if there is none.
    pub fn get(&self, name: &str) -> Option<&Config>
        ensures { option_copied result ≡ lookup (is_name name.now) self.now }
    {
        self.places.get(name)?.as_ref()
    }

    /// Returns the configuration under a name, to be changed in its place; `None` if there is none.
    pub fn get_mut(&mut self, name: &str) -> Option<&mut Config>
        ensures* writes_back { sem 𝓛 (lends_config self.entry name.now result) }
        ensures value { option_copied_mut result ≡ lookup (is_name name.now) self.old }
    {
        self.places.get_mut(name)?.as_mut()
    }

    /// Returns an iterator over the configurations with their names, in order.
    pub fn iter(&self) -> Entries<'_>
        ensures { result ≡ self.now }
    {
        Entries {
            places: self.places.iter(),
        }
    }

    /// Puts a configuration under a name: last, if the name is new; otherwise it replaces the one that is there, which
    /// keeps its place.
    ///
    /// # Errors
    /// `AllocError` if memory runs out. The configurations are then as they were.
    pub fn put(&mut self, name: String, config: Config) -> Result<(), AllocError>
        ensures ok { OnOk result (self.new ≡ put_under name config self.old) }
        ensures unchanged { OnErr result (self.new ≡ self.old) }
    {
        put_place(&mut self.places, name, config)
    }

    /// Removes the configuration under a name, if there is one. The others keep their order.
    pub fn remove(&mut self, name: &str)
        ensures { self.new ≡ cut_from name.now self.old }
    {
        if empty_place(&mut self.places, name) {
            self.removed = self.removed.saturating_add(1);
            self.close_if_sparse();
        }
    }

    /// Removes the configurations under some names, as [`Configs::remove`] does, and then puts others in, one after the
    /// other, as [`Configs::put`] does.
    ///
    /// # Errors
    /// `AllocError` if memory runs out. The configurations are then as they were.
    pub fn update(&mut self, removed: &IndexSet<String>, put: Configs) -> Result<(), AllocError>
        ensures ok { OnOk result (self.new ≡ put_each put (cut_each removed.now.keys self.old)) }
        ensures unchanged { OnErr result (self.new ≡ self.old) }
    {
        let put = put.into_places();
        self.places.reserve(put.len())?;
        empty_places(&mut self.places, removed);
        put_places(&mut self.places, put);
        self.removed = self.removed.saturating_add(removed.len());
        self.close_if_sparse();
        Ok(())
    }

    /// Returns a copy. It fails only if memory runs out.
    pub fn try_copy(&self, alloc: Global) -> Result<Configs, AllocError>
        requires plain { ArePlain self.now }
        requires distinct { names_differ (names_of (entries_of self.now)) ≡ true }
        ensures same { IfOk result (λ copy. entries_of copy ≡ entries_of self.now) }
        ensures plain { IfOk result ArePlain }
    {
        let mut copy = Configs {
            places: IndexMap::with_capacity(alloc, self.places.len())?,
            removed: 0,
        };
        for (name, config) in self.iter() {
            copy.put(String::from_str(alloc, name)?, config.try_copy(alloc)?)?;
        }
        Ok(copy)
    }

    /// The places, some of which may be empty.
    fn into_places(self) -> Places
        ensures { present result.entries ≡ self }
    {
        let Configs { places, .. } = self;
        places
    }

    /// Closes the empty places if half of the places, rounded down, are empty.
    fn close_if_sparse(&mut self)
        ensures { self.new ≡ self.old }
    {
        if self.removed >= self.places.len() / 2 {
            close_empty(&mut self.places);
            self.places.shrink_to(2 * self.places.len());
            self.removed = 0;
        }
    }
}

/// Puts a configuration in the place of its name; last, if that place is empty or there is none. It fails only if
/// memory runs out, and not where there is room to spare.
fn put_place(places: &mut Places, name: String, config: Config) -> Result<(), AllocError>
    ensures ok { OnOk result (present places.new.entries
        ≡ put_under name config (present places.old.entries)) }
    ensures unchanged { OnErr result (present places.new.entries ≡ present places.old.entries) }
    ensures succeeds { 0 < spare places.old → IsOk result }
    ensures room { spare places.old ≤ spare places.new + 1 }
    ensures distinct { IsUnique string_eq places.new }
{
    // The name would go back to its empty place.
    if has_empty_place(places, &name) {
        close_empty(places);
    }
    places.insert(name, Some(config))?;
    Ok(())
}

/// Whether the place of a name is there, and empty.
fn has_empty_place(places: &Places, name: &str) -> bool
    ensures { IsTrue result ↔ (lookup (is_name name.now) places.now.entries ≡ Some None) }
{
    match places.get(name) {
        Some(place) => place.is_none(),
        None => false,
    }
}

/// Puts configurations in the places of their names, one after the other, as [`put_place`] does. There is room to spare
/// for all of them.
fn put_places(places: &mut Places, put: Places)
    requires { length put.entries ≤ spare places.old }
    ensures present { present places.new.entries
        ≡ put_each (present put.entries) (present places.old.entries) }
    ensures distinct { IsUnique string_eq places.old → IsUnique string_eq places.new }
{
    for (name, place) in put {
        if let Some(config) = place {
            // It can't fail, since there is room to spare.
            let _ = put_place(places, name, config);
        }
    }
}

/// Empties the place of a name. Returns whether it had a configuration.
fn empty_place(places: &mut Places, name: &str) -> bool
    ensures present { present places.new.entries ≡ cut_from name.now (present places.old.entries) }
    ensures room { spare places.old ≤ spare places.new }
    ensures distinct { IsUnique string_eq places.new }
{
    match places.get_mut(name) {
        Some(place) => place.take().is_some(),
        None => false,
    }
}

/// Empties the places of some names.
fn empty_places(places: &mut Places, names: &IndexSet<String>)
    ensures present { present places.new.entries
        ≡ cut_each names.now.keys (present places.old.entries) }
    ensures room { spare places.old ≤ spare places.new }
    ensures distinct { IsUnique string_eq places.old → IsUnique string_eq places.new }
{
    for name in names {
        empty_place(places, name);
    }
}

/// Closes the empty places. The others keep their order.
fn close_empty(places: &mut Places)
    ensures distinct { IsUnique string_eq places.new }
    ensures entries { places.new.entries ≡ filter (λ p. is_some p.1) places.old.entries }
    ensures room { spare places.old ≤ spare places.new }
{
    places.retain(
        |_name: &String, place: &mut Option<Config>| -> bool
            ensures { (result ≡ is_some place.old) × (place.new ≡ place.old) }
        { place.is_some() },
    );
}

/// An iterator over configurations with their names, in order. Contracts see the list of them.
#[derive(Drop)]
pub(crate) struct Entries<'a> {
    places: Iter<'a, String, Option<Config>>,
}

impl<'a> Model for Entries<'a> {
    ghost use Rattle.std.specs.Prelude.{List, String};
    ghost use Rattle.std.specs.Coded.{codes};
    ghost use Rattle.std.specs.declared.alloc.Global.{Global};
    ghost use Rattle.yaml_data.specs.declared.tree.Tree.{Tree};
    ghost use Rattle.yaml_data.specs.contracts.tree.Tree as trees;

    ghost Value = { List (String Global × Tree) };

    ghost coded = { Prim.hlevel (codes, trees.the_row.coded) };

    ghost use Rattle.conf_state.specs.Places.{present};

    ghost view = { λ entries. present entries.places };
}

impl<'a> Iterator for Entries<'a> {
    type Item = (&'a String, &'a Config);

    ghost next_gives = { TakesFirst deref_pair };

    ghost remaining = { λ entries. at_most (length entries) };

    fn next(&mut self) -> Option<(&'a String, &'a Config)> {
        while let Some((name, place)) = self.places.next() {
            if let Some(config) = place {
                return Some((name, config));
            }
        }
        None
    }
}
