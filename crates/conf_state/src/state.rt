// The state of a store.
ghost use Rattle.std.specs.Prelude.{◌≡◌, ◌+◌, ◌<◌, ◌≤◌, ◌⊎◌, ℕ, List, [], map, min, true, false, option_map, length, Some};
ghost use Rattle.std.specs.Prelude.{Ok, Err, OnOk, IfOk, IfSome, IfNone, MatchOption, is_some, IfErr, OnErr};
ghost use Rattle.conf_state.specs.Prelude.{chars, YieldsFirstBy, item_count, Good, tree_of, config_limits, mapping};
ghost use Rattle.conf_state.specs.Prelude.{value_at};
ghost use Rattle.conf_state.specs.Commands.{edit_of, text_of};
ghost use Rattle.conf_state.specs.Names.{good_name};
ghost use Rattle.conf_state.specs.Kept.{entries_of, ArePlain, Appended, IsFit, IsUnfit};
ghost use Rattle.conf_state.specs.Limits.{IsState};
ghost use Rattle.conf_state.specs.States.{Entry, names_of, config_named, put_config, cut_config};
ghost use Rattle.conf_state.specs.BaseTexts.{members, base_length, entry_length, entries_length};
ghost use Rattle.conf_state.specs.Steps.{all_edited, and_then, next_state};
ghost use Rattle.conf_state.specs.Drafts.{drafted, IsDraftOf};
ghost use Rattle.conf_state.specs.Edits.{configs_edited};
ghost use Rattle.conf_state.specs.Trails.{AreSets};

use crate::base::{BASE_LIMIT, base_length, entry_length, write_entry};
use crate::command::Edit;
use crate::configs::{Configs, Entries};
use crate::counting::{check_room, length_after};
use crate::draft::Draft;
use crate::editing::check_limits;
use crate::fault::StoreFault;
use crate::name::{absence, good_name};
use crate::planning::EditPlan;
use crate::room::Room;
use crate::sets::{Sets, set_all, take_back};
use indexmap::IndexSet;
use std::alloc::{AllocError, Global};
use std::marker::Model;
use std::mem;
use tree_path::Path;
use yaml_config::{Config, Edit as PathEdit};
use yaml_writer::Sink;

/// The configurations of a store by name, in order, and how many commands were accepted. The number of bytes that the
/// configurations have in the base text is kept with them. Contracts see the list of configurations, with each name as
/// its characters, and the count. That a state keeps its limits is said by the clause `limits` of [`State::count`].
#[derive(Drop)]
pub struct State {
    configs: Configs,
    count: u64,
    entries: u64,
}

impl Model for State {
    ghost use Rattle.conf_state.specs.States.{Contents};
    ghost use Rattle.conf_state.specs.TreeCode.{contents_code};

    ghost Value = { Contents };

    ghost coded = { contents_code };

    ghost use Rattle.conf_state.specs.Kept.{entries_of, IsKept};

    ghost view = { λ s. record { configs = entries_of s.configs; count = s.count } };

    ghost invariant = { λ s. IsKept s.configs s.count s.entries };
}

impl State {
    /// No configurations, and no command accepted. It takes no memory.
    pub fn new(alloc: Global) -> State
        ensures { result ≡ record { configs = []; count = 0 } }
    {
        State {
            configs: Configs::new(alloc),
            count: 0,
            entries: 0,
        }
    }

    /// The state that holds these configurations, in this order, after this many accepted commands. Returns `None` if
    /// no state does: a name is not good or comes twice, a configuration is over its limits, or the base text would
    /// have more than 67,108,864 bytes. It takes time linear in the configurations, and moves them. It fails only if
    /// memory runs out.
    pub fn from_parts(
        alloc: Global,
        parts: Vec<(String, Config)>,
        count: u64,
    ) -> Result<Option<State>, AllocError>
        ensures some { IfOk result (λ read. IfSome read (λ state.
            (state ≡ record { configs = entries_of parts.items; count = count }) × IsState state)) }
        ensures none { IfOk result (λ read. IfNone read
            (IsState (record { configs = entries_of parts.items; count = count }) → ⊥)) }
    {
        let mut configs = Configs::new(alloc);
        let mut entries = 0u64;
        for (name, config) in parts {
            match append(&mut configs, name, config)? {
                Some(length) => entries = entries.saturating_add(length),
                None => return Ok(None),
            }
        }
        if base_length(u128::from(count), entries) > BASE_LIMIT {
            return Ok(None);
        }
        Ok(Some(State {
            configs,
            count,
            entries,
        }))
    }

    /// How many commands were accepted.
    pub fn count(&self) -> u64
        ensures count { result ≡ self.now.count }
        ensures limits { IsState self.now }
    {
        self.count
    }

    /// The configuration under a name; `None` if no configuration has the name.
    pub fn get(&self, name: &str) -> Option<&Config>
        ensures found { option_map (λ config. tree_of config.now) result
            ≡ config_named self.now.configs (chars name.now) }
        ensures limits { IsState self.now }
    {
        self.configs.get(name)
    }

    /// Gets the configuration under a name ready for reads at a path ([`Config::index_for`]), if there is one. The
    /// state stays as it is.
    pub fn index_for(&mut self, alloc: Global, name: &str, path: &Path)
        ensures { self.new ≡ self.old }
    {
        let Some(config) = self.configs.get_mut(name) else {
            return;
        };
        config.index_for(alloc, path);
    }

    /// The names, in the order of the configurations.
    pub fn names(&self) -> Names<'_>
        ensures { result ≡ names_of self.now.configs }
    {
        Names {
            configs: self.configs.iter(),
        }
    }

    /// A copy: the same configurations in the same order, and the same count. It fails only if memory runs out.
    pub fn try_copy(&self, alloc: Global) -> Result<State, AllocError>
        ensures { IfOk result (λ copy. copy ≡ self.now) }
    {
        let configs = self.configs.try_copy(alloc)?;
        Ok(State {
            configs,
            count: self.count,
            entries: self.entries,
        })
    }

    /// Puts a configuration under a name, if the store has room for it. A refusal changes nothing.
    pub(crate) fn put(&mut self, name: String, config: Config, room: Room) -> Result<(), StoreFault>
        requires named { good_name (text_of name) ≡ true }
        requires within { Good (tree_of config) config_limits }
        ensures ok { OnOk result
            (next_state self.old room
            (put_config self.old.configs (text_of name) (tree_of config)) ≡ Ok self.new) }
        ensures refused { IfErr result (λ fault. (fault ≡ StoreFault.OutOfMemory)
            ⊎ (next_state self.old room
            (put_config self.old.configs (text_of name) (tree_of config)) ≡ Err fault)) }
        ensures unchanged { OnErr result (self.new ≡ self.old) }
    {
        let entries = self.length_with(&name, &config);
        self.check_room(entries, room)?;
        self.configs.put(name, config)?;
        self.entries = entries;
        self.count += 1;
        Ok(())
    }

    /// Makes an edit inside the configuration under a name, in place, at a pointer. The pointer is not empty.
    ///
    /// Every refusal is found before anything changes, by the lengths after the edit.
    pub(crate) fn edit(
        &mut self,
        alloc: Global,
        name: &str,
        pointer: &str,
        edit: PathEdit,
        room: Room,
    ) -> Result<(), StoreFault>
        requires { 0 < length pointer.now }
        ensures ok { OnOk result
            (and_then
            (configs_edited self.old.configs (chars name.now) edit (chars pointer.now))
            (next_state self.old room) ≡ Ok self.new) }
        ensures refused { IfErr result (λ fault. (fault ≡ StoreFault.OutOfMemory)
            ⊎ (and_then
            (configs_edited self.old.configs (chars name.now) edit (chars pointer.now))
            (next_state self.old room) ≡ Err fault)) }
        ensures unchanged { OnErr result (self.new ≡ self.old) }
    {
        let before = self.entries_length();
        let Some(config) = self.configs.get_mut(name) else {
            return Err(absence(name));
        };
        let plan = EditPlan::new(alloc, config, pointer, &edit)?;
        let entries = length_after(before, plan.change);
        check_room(self.count, entries, room)?;
        plan.perform(alloc, config, edit)?;
        self.entries = entries;
        self.count += 1;
        Ok(())
    }

    /// Makes sets inside configurations in place, one after the other, as one command. A refusal changes nothing: the
    /// sets that were made are taken back.
    pub(crate) fn set_all(
        &mut self,
        alloc: Global,
        edits: Vec<Edit>,
        room: Room,
    ) -> Result<(), StoreFault>
        requires { AreSets edits.items }
        ensures ok { OnOk result
            (and_then (all_edited self.old.configs (map edit_of edits.items))
            (next_state self.old room) ≡ Ok self.new) }
        ensures refused { IfErr result (λ fault. (fault ≡ StoreFault.OutOfMemory)
            ⊎ (and_then (all_edited self.old.configs (map edit_of edits.items))
            (next_state self.old room) ≡ Err fault)) }
        ensures unchanged { OnErr result (self.new ≡ self.old) }
    {
        let mut sets = Sets {
            made: Vec::new(alloc),
            length: self.entries_length(),
        };
        match set_all(alloc, &mut self.configs, &mut sets, edits, self.count, room) {
            Ok(()) => {
                self.entries = sets.length;
                self.count += 1;
                Ok(())
            }
            Err(fault) => {
                take_back(&mut self.configs, sets.made);
                Err(fault)
            }
        }
    }

    /// Removes the configuration under a name, if there is one. A refusal changes nothing.
    pub(crate) fn take_out(&mut self, name: &str, room: Room) -> Result<(), StoreFault>
        ensures ok { OnOk result (next_state self.old room
            (cut_config self.old.configs (chars name.now)) ≡ Ok self.new) }
        ensures refused { IfErr result
            (λ fault. next_state self.old room
            (cut_config self.old.configs (chars name.now)) ≡ Err fault) }
        ensures unchanged { OnErr result (self.new ≡ self.old) }
    {
        let entries = self.length_without(name);
        self.check_room(entries, room)?;
        self.configs.remove(name);
        self.entries = entries;
        self.count += 1;
        Ok(())
    }

    /// Replaces the configurations by those that a draft makes of them. A refusal changes nothing.
    pub(crate) fn take(&mut self, draft: Draft, room: Room) -> Result<(), StoreFault>
        requires { IsDraftOf self.old.configs draft }
        ensures ok { OnOk result (next_state self.old room (drafted self.old.configs draft)
            ≡ Ok self.new) }
        ensures refused { IfErr result (λ fault. (fault ≡ StoreFault.OutOfMemory)
            ⊎ (next_state self.old room (drafted self.old.configs draft) ≡ Err fault)) }
        ensures unchanged { OnErr result (self.new ≡ self.old) }
    {
        let Draft {
            removed,
            touched,
            length,
        } = draft;
        self.check_room(length, room)?;
        self.configs.update(&removed, touched)?;
        self.entries = length;
        self.count += 1;
        Ok(())
    }

    /// Takes all configurations out, as a draft of the state that is left, which has none. It takes no memory.
    pub(crate) fn take_configs(&mut self, alloc: Global) -> Draft
        ensures nothing { self.new.configs ≡ [] }
        ensures count { self.new.count ≡ self.old.count }
        ensures draft { IsDraftOf self.new.configs result }
        ensures same { drafted self.new.configs result ≡ self.old.configs }
    {
        let touched = mem::replace(&mut self.configs, Configs::new(alloc));
        let length = mem::replace(&mut self.entries, 0);
        Draft {
            removed: IndexSet::new(alloc),
            touched,
            length,
        }
    }

    /// Puts the configurations that a draft makes into a state that has none. A refusal changes nothing.
    pub(crate) fn fill(&mut self, draft: Draft, room: Room) -> Result<(), StoreFault>
        requires nothing { self.old.configs ≡ [] }
        requires draft { IsDraftOf self.old.configs draft }
        ensures ok { OnOk result (next_state self.old room (drafted self.old.configs draft)
            ≡ Ok self.new) }
        ensures refused { IfErr result (λ fault.
            next_state self.old room (drafted self.old.configs draft) ≡ Err fault) }
        ensures unchanged { OnErr result (self.new ≡ self.old) }
    {
        let Draft {
            touched,
            length,
            ..
        } = draft;
        self.check_room(length, room)?;
        self.configs = touched;
        self.entries = length;
        self.count += 1;
        Ok(())
    }

    /// Whether the store has room for one more command, after which the configurations have `entries` bytes in the base
    /// text.
    fn check_room(&self, entries: u64, room: Room) -> Result<(), StoreFault>
        ensures ok { OnOk result ((configs : List Entry)
            → entries ≡ min (entries_length configs) u64.MAX
            → next_state self.now room configs
            ≡ Ok (record { configs = configs; count = self.now.count + 1 })) }
        ensures counts { OnOk result (self.now.count < u64.MAX) }
        ensures short { OnOk result (entries ≤ BASE_LIMIT) }
        ensures refused { IfErr result (λ fault. (configs : List Entry)
            → entries ≡ min (entries_length configs) u64.MAX
            → next_state self.now room configs ≡ Err fault) }
    {
        check_room(self.count, entries, room)
    }

    /// How many bytes all configurations have in the base text.
    pub(crate) fn entries_length(&self) -> u64
        ensures exact { result ≡ entries_length self.now.configs }
        ensures short { result ≤ BASE_LIMIT }
        ensures kept { IsState self.now }
    {
        self.entries
    }

    /// How many bytes the base text has, at most 67,108,864. The configurations are not counted again.
    pub fn base_length(&self) -> u64
        ensures { result ≡ base_length self.now }
    {
        base_length(u128::from(self.count), self.entries_length())
    }

    /// Writes the configurations as a base text has them after `configs:`: each under its name at the indentation 2, in
    /// their order and the one style, or ` {}` if there are none. It fails only if the sink does.
    pub fn write_configs<S: Sink>(&self, sink: &mut S) -> Result<(), S::Fault>
        ensures { OnOk result (S.Takes sink.old (value_at
            (mapping (members self.now.configs)) 0) sink.new) }
    {
        if self.configs.is_empty() {
            return sink.put_text(" {}\n");
        }
        sink.put_char('\n')?;
        for (name, config) in self.configs.iter() {
            write_entry(name, config, sink)?;
        }
        Ok(())
    }

    /// How many bytes the configuration under a name has in the base text; 0 if there is none.
    fn length_of(&self, name: &str) -> u64
        ensures { result + entries_length (cut_config self.now.configs (chars name.now))
            ≡ entries_length self.now.configs }
    {
        match self.configs.get(name) {
            Some(config) => entry_length(name, config),
            None => 0,
        }
    }

    /// How many bytes the configurations would have in the base text with this one under its name; at most the greatest
    /// `u64`.
    fn length_with(&self, name: &str, config: &Config) -> u64
        ensures { result ≡ min (entries_length (put_config self.now.configs (chars name.now)
            (tree_of config.now))) u64.MAX }
    {
        self.length_without(name)
            .saturating_add(entry_length(name, config))
    }

    /// How many bytes the configurations would have in the base text without the one under this name.
    fn length_without(&self, name: &str) -> u64
        ensures { result ≡ entries_length (cut_config self.now.configs (chars name.now)) }
    {
        self.entries_length() - self.length_of(name)
    }
}

/// Puts a configuration after the others, and returns how many bytes it has in the base text, at most the greatest
/// `u64`. Returns `None` if its name is not good or is there, or the configuration is over its limits.
fn append(configs: &mut Configs, name: String, config: Config) -> Result<Option<u64>, AllocError>
    requires { ArePlain configs.old }
    ensures { IfOk result (λ read. MatchOption read
        (IsUnfit (entries_of configs.old) (text_of name) (tree_of config))
        (Appended configs.old configs.new (text_of name) (tree_of config))) }
{
    if !is_fit(configs, &name, &config) {
        return Ok(None);
    }
    let length = entry_length(&name, &config);
    configs.put(name, config)?;
    Ok(Some(length))
}

/// Whether a configuration may be put after the others: its name is good and new, and it keeps its limits.
fn is_fit(configs: &Configs, name: &str, config: &Config) -> bool
    requires { ArePlain configs.now }
    ensures fit { result ≡ true
        → IsFit (entries_of configs.now) (chars name.now) (tree_of config.now) }
    ensures unfit { result ≡ false
        → IsUnfit (entries_of configs.now) (chars name.now) (tree_of config.now) }
{
    if !good_name(name) {
        return false;
    }
    if check_limits(config).is_err() {
        return false;
    }
    !has(configs, name)
}

/// Whether there is a configuration under a name.
fn has(configs: &Configs, name: &str) -> bool
    requires { ArePlain configs.now }
    ensures { result ≡ is_some (config_named (entries_of configs.now) (chars name.now)) }
{
    configs.get(name).is_some()
}

/// An iterator over the names of a state's configurations, in order. Contracts see the list of them.
#[derive(Drop)]
pub struct Names<'a> {
    configs: Entries<'a>,
}

impl<'a> Model for Names<'a> {
    ghost use Rattle.std.specs.Prelude.{List, ℕ};
    ghost use Rattle.conf_state.specs.Kept.{names_from};

    ghost Value = { List (List ℕ) };

    ghost view = { λ names. names_from names.configs };
}

impl<'a> Iterator for Names<'a> {
    type Item = &'a str;

    ghost next_gives = { YieldsFirstBy (λ name. chars name.now) (λ names. names) };

    ghost remaining = { item_count (λ names. names) };

    fn next(&mut self) -> Option<&'a str> {
        let (name, _) = self.configs.next()?;
        Some(name.as_str())
    }
}
