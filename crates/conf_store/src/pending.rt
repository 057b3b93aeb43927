// The configurations of a running checkpoint's base whose text isn't written yet.
ghost use Rattle.std.specs.Prelude.{◌≡◌, ◌≤◌, ◌+◌, ◌<◌, ◌++◌, [], ◌∷◌, true, false, List, ℕ, length, map, IfOk, OnOk};
ghost use Rattle.conf_store.specs.Prelude.{chars, command_of, command_with, edit_of, name_of, IsState, names_of};
ghost use Rattle.conf_store.specs.Early.{text_named};
ghost use Rattle.conf_state.specs.Touched.{touched};
ghost use Rattle.conf_store.specs.Parts.{AreMade, AreWithin, IsMade, joined, parts_named, texts};
ghost use Rattle.conf_store.specs.Staged.{slice_limit};

use crate::cutting::Cutting;
use conf_state::{Command, Edit, Edits, State};
use std::alloc::{AllocError, Global};
use std::collections::{HashMap, VecDeque};
use std::marker::Model;

/// The configurations that are not written yet, in their order. Contracts see a list of their names; with a name is the
/// text of the configuration, if it was made early, before a command changed the configuration.
#[derive(Drop)]
pub struct Pending {
    alloc: Global,
    names: VecDeque<String>,
    /// The texts that were made early. A configuration that is written has an empty one, so that none is made for it.
    early: HashMap<String, String>,
}

impl Model for Pending {
    ghost use Rattle.std.specs.Prelude.{List};
    ghost use Rattle.conf_store.specs.Early.{AreApart, parts_of};
    ghost use Rattle.conf_store.specs.Parts.{Part, parts_code};

    ghost Value = { List Part };

    ghost coded = { parts_code };

    ghost view = { λ p. parts_of p.early p.names.items };

    ghost invariant = { λ p. AreApart p.names.items };
}

/// The configurations of a state, and the bytes of the longest of them.
#[derive(Drop)]
pub struct Longest {
    pub pending: Pending,
    pub bytes: u64,
}

impl Pending {
    /// No configurations. It takes no memory.
    pub fn none(alloc: Global) -> Pending
        ensures { result ≡ [] }
    {
        Pending {
            alloc,
            names: VecDeque::new(alloc),
            early: HashMap::new(alloc),
        }
    }

    /// All configurations of a state. It fails only if memory runs out.
    pub fn of_state(alloc: Global, state: &State) -> Result<Longest, AllocError>
        requires { IsState state.now }
        ensures all { IfOk result (λ r. r.pending ≡ parts_named (names_of state.now.configs)) }
        ensures within { IfOk result (λ r. AreWithin r.bytes
            (texts state.now.configs (parts_named (names_of state.now.configs)))) }
    {
        let mut names = VecDeque::new(alloc);
        let mut bytes = 0;
        for name in state.names() {
            bytes = state.entry_length(name).max(bytes);
            names.push_back(String::from_str(alloc, name)?)?;
        }
        // An empty text for each that is written.
        let early = HashMap::with_capacity(alloc, names.len())?;
        let pending = Pending {
            alloc,
            names,
            early,
        };
        Ok(Longest { pending, bytes })
    }

    /// Whether there are none.
    pub fn is_empty(&self) -> bool
        ensures none { result ≡ true → self.now ≡ [] }
        ensures some { result ≡ false → 0 < length self.now }
    {
        self.names.is_empty()
    }

    /// Makes the text of a configuration that a command may change next. It fails only if memory runs out.
    pub fn keep(&mut self, alloc: Global, state: &State, name: &str) -> Result<(), AllocError>
        ensures same { texts state.now.configs self.new ≡ texts state.now.configs self.old }
        ensures kept { OnOk result (IsMade (chars name.now) self.new) }
        ensures stays { (other : List ℕ) → IsMade other self.old → IsMade other self.new }
    {
        if self.early.contains_key(name) {
            return Ok(());
        }
        let mut text = String::with_capacity(alloc, state.entry_length(name) as usize)?;
        state.write_entry(name, &mut text)?;
        self.early.insert(String::from_str(alloc, name)?, text)?;
        Ok(())
    }

    /// The same for each configuration that a command may change.
    pub fn keep_touched(
        &mut self,
        alloc: Global,
        state: &State,
        command: &Command,
    ) -> Result<(), AllocError>
        ensures same { texts state.now.configs self.new ≡ texts state.now.configs self.old }
        ensures kept { OnOk result (AreMade (touched (command_of command.now)) self.new) }
    {
        match command {
            Command::Import { name, .. } => self.keep(alloc, state, name),
            Command::Set { name, .. } => self.keep(alloc, state, name),
            Command::Delete { name, .. } => self.keep(alloc, state, name),
            Command::Batch { edits } => self.keep_each(alloc, state, edits),
            Command::Noted { edits, .. } => self.keep_edited(alloc, state, edits),
        }
    }

    /// The same for the edits of a command with an about.
    fn keep_edited(&mut self, alloc: Global, state: &State, edits: &Edits) -> Result<(), AllocError>
        ensures same { texts state.now.configs self.new ≡ texts state.now.configs self.old }
        ensures kept { OnOk result (AreMade (touched (command_with edits.now)) self.new) }
    {
        match edits {
            Edits::Single(edit) => self.keep(alloc, state, edit.name()),
            Edits::Batch(edits) => self.keep_each(alloc, state, edits),
        }
    }

    /// The same for each edit of a batch.
    fn keep_each(&mut self, alloc: Global, state: &State, edits: &[Edit]) -> Result<(), AllocError>
        ensures same { texts state.now.configs self.new ≡ texts state.now.configs self.old }
        ensures kept { OnOk result (AreMade (map name_of (map edit_of edits.now)) self.new) }
    {
        for edit in edits {
            self.keep(alloc, state, edit.name())?;
        }
        Ok(())
    }

    /// Takes the first configuration out, as the next part to cut. There is one, with room for its text.
    pub fn load_next(&mut self, state: &State, cutting: &mut Cutting)
        requires some { 0 < length self.old }
        requires within { AreWithin cutting.old.part_room (texts state.now.configs self.old) }
        ensures same { cutting.new.rest ++ joined (texts state.now.configs self.new)
            ≡ joined (texts state.now.configs self.old) }
        ensures fewer { length self.new + 1 ≡ length self.old }
        ensures slice { cutting.new.slice ≡ cutting.old.slice }
        ensures slice_room { cutting.new.slice_room ≡ cutting.old.slice_room }
        ensures within { AreWithin cutting.new.part_room (texts state.now.configs self.new) }
    {
        let name = self.names.pop_front().unwrap();
        load_text(&self.early, state, &name, cutting);
        // It has room. If it hasn't, a text may be made for nothing.
        let _ = self.early.insert(name, String::new(self.alloc));
    }
}

/// Gives the text of a configuration to be cut: as it was made early, or as the state has it.
fn load_text(early: &HashMap<String, String>, state: &State, name: &str, cutting: &mut Cutting)
    ensures rest { length (text_named early.now state.now.configs name.now) ≤ cutting.old.part_room
        → cutting.new.rest ≡ text_named early.now state.now.configs name.now }
    ensures slice { cutting.new.slice ≡ cutting.old.slice }
    ensures slice_room { cutting.new.slice_room ≡ cutting.old.slice_room }
    ensures part_room { cutting.old.part_room ≤ cutting.new.part_room }
{
    if let Some(text) = early.get(name) {
        cutting.load(text);
        return;
    }
    cutting.load_entry(state, name);
}

/// Cuts from the part at hand and from the parts after it, until the slice is full or nothing is left of them.
pub fn cut_parts(cutting: &mut Cutting, pending: &mut Pending, state: &State)
    requires ready { slice_limit ≤ cutting.old.slice_room }
    requires within { AreWithin cutting.old.part_room (texts state.now.configs pending.old) }
    ensures same { cutting.new.slice ++ cutting.new.rest ++ joined (texts state.now.configs pending.new)
        ≡ cutting.old.slice ++ cutting.old.rest ++ joined (texts state.now.configs pending.old) }
    ensures ready { slice_limit ≤ cutting.new.slice_room }
    ensures within { AreWithin cutting.new.part_room (texts state.now.configs pending.new) }
    ensures short { length cutting.new.slice ≤ slice_limit }
    ensures left { (length cutting.new.slice ≡ slice_limit → ⊥) → (cutting.new.rest ≡ []) × (pending.new ≡ []) }
{
    cutting.cut_more();
    'parts: while !cutting.is_full() {
        if pending.is_empty() {
            return;
        }
        pending.load_next(state, cutting);
        cutting.cut_more();
    }
}
