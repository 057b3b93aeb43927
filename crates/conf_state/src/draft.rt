// What the edits of a batch make of a state, before the state is changed.
ghost use Rattle.std.specs.Prelude.{◌≡◌, ◌⊎◌, ◌<◌, Ok, Err, OnOk, IfOk, IfErr, is_some, length, option_map};
ghost use Rattle.conf_state.specs.Prelude.{chars, tree_of};
ghost use Rattle.conf_state.specs.Commands.{text_of};
ghost use Rattle.conf_state.specs.Drafts.{cut_all, drafted, texts_of, ChangesOne, IsDraft, IsDraftOf};
ghost use Rattle.conf_state.specs.Edits.{configs_edited};
ghost use Rattle.conf_state.specs.States.{config_named};

use crate::configs::Configs;
use crate::draft_length::length_changed;
use crate::editing::Editor;
use crate::fault::StoreFault;
use crate::name::absence;
use crate::origin::Origin;
use crate::planning::edit_config;
use indexmap::IndexSet;
use std::alloc::{AllocError, Global};
use yaml_config::{Change, Config, Edit as PathEdit};

/// What edits so far make of an origin's configurations: some are removed from it, and then others are put into it, in
/// order. The origin stays as it is. So where an edit of a batch is refused, the draft is dropped, and there is nothing
/// to take back.
///
/// A configuration that is put, or edited inside, is held here, and the others are read in the origin. So each call is
/// given the same origin.
#[derive(Drop)]
pub(crate) struct Draft {
    /// The names that are removed from the origin first. Some of them may not be in the origin.
    pub(crate) removed: IndexSet<String>,
    /// The configurations that are put then.
    pub(crate) touched: Configs,
    /// How many bytes the configurations that the draft makes of the origin's have in the base text.
    pub(crate) length: u64,
}

impl Draft {
    /// The draft before any edit. It takes no memory.
    pub fn new<O: Origin>(alloc: Global, origin: &O) -> Draft
        ensures same { drafted (O.configs origin.now) result ≡ O.configs origin.now }
        ensures draft { IsDraftOf (O.configs origin.now) result }
    {
        Draft {
            removed: IndexSet::new(alloc),
            touched: Configs::new(alloc),
            length: origin.total_length(),
        }
    }

    /// Makes an edit inside the configuration under a name, at a pointer that is not empty, and leaves the draft's
    /// length as it was. Returns what the edit changes in the length of the configuration. A configuration that is
    /// still the origin's own is copied first.
    fn edit_uncounted<O: Origin>(
        &mut self,
        alloc: Global,
        origin: &O,
        name: String,
        pointer: &str,
        edit: PathEdit,
    ) -> Result<Change, StoreFault>
        requires draft { IsDraftOf (O.configs origin.now) self.old }
        requires steps { 0 < length pointer.now }
        ensures ok { OnOk result (configs_edited (drafted (O.configs origin.now) self.old)
            (text_of name) edit (chars pointer.now)
            ≡ Ok (drafted (O.configs origin.now) self.new)) }
        ensures draft { OnOk result (IsDraft self.new) }
        ensures changes { IfOk result (λ change. ChangesOne change
            (drafted (O.configs origin.now) self.old) (text_of name)
            (drafted (O.configs origin.now) self.new)) }
        ensures length { OnOk result (self.new.length ≡ self.old.length) }
        ensures refused { IfErr result (λ fault. (fault ≡ StoreFault.OutOfMemory)
            ⊎ (configs_edited (drafted (O.configs origin.now) self.old)
            (text_of name) edit (chars pointer.now) ≡ Err fault)) }
    {
        if let Some(config) = self.touched.get_mut(&name) {
            return edit_config(alloc, config, pointer, edit);
        }
        let Some(mut copy) = self.untouched(alloc, origin, &name)? else {
            return Err(absence(&name));
        };
        let change = edit_config(alloc, &mut copy, pointer, edit)?;
        self.touched.put(name, copy)?;
        Ok(change)
    }

    /// A copy of the configuration under a name. It fails only if memory runs out.
    pub(crate) fn copy_of<O: Origin>(
        &self,
        alloc: Global,
        origin: &O,
        name: &str,
    ) -> Result<Option<Config>, AllocError>
        requires { IsDraftOf (O.configs origin.now) self.now }
        ensures { IfOk result (λ copy. option_map tree_of copy
            ≡ config_named (drafted (O.configs origin.now) self.now) (chars name.now)) }
    {
        if let Some(config) = self.touched.get(name) {
            return Ok(Some(config.try_copy(alloc)?));
        }
        self.untouched(alloc, origin, name)
    }

    /// Whether there is a configuration under a name.
    pub(crate) fn has<O: Origin>(&self, origin: &O, name: &str) -> bool
        requires { IsDraftOf (O.configs origin.now) self.now }
        ensures { result ≡ is_some
            (config_named (drafted (O.configs origin.now) self.now) (chars name.now)) }
    {
        match self.touched.get(name) {
            Some(_) => true,
            None => self.leaves(origin, name),
        }
    }

    /// Whether the origin has a configuration under a name that isn't removed.
    pub(crate) fn leaves<O: Origin>(&self, origin: &O, name: &str) -> bool
        requires { IsDraftOf (O.configs origin.now) self.now }
        ensures { result ≡ is_some (config_named
            (cut_all (O.configs origin.now) (texts_of self.now.removed.keys)) (chars name.now)) }
    {
        if self.removed.contains(name) {
            return false;
        }
        origin.has(name)
    }

    /// A copy of the origin's own configuration under a name, if it isn't removed.
    fn untouched<O: Origin>(
        &self,
        alloc: Global,
        origin: &O,
        name: &str,
    ) -> Result<Option<Config>, AllocError>
        requires { IsDraftOf (O.configs origin.now) self.now }
        ensures { IfOk result (λ copy. option_map tree_of copy ≡ config_named
            (cut_all (O.configs origin.now) (texts_of self.now.removed.keys)) (chars name.now)) }
    {
        if self.removed.contains(name) {
            return Ok(None);
        }
        origin.copy_of(alloc, name)
    }
}

/// Makes edits on a draft of an origin. After a refusal the draft has to be dropped.
#[derive(Drop)]
pub(crate) struct OnDraft<'o, O: Origin> {
    /// What it is a draft of.
    pub(crate) origin: &'o O,
}

impl<O: Origin> Editor for OnDraft<'_, O> {
    ghost use Rattle.conf_state.specs.Drafts.{drafted, IsDraftOf};
    ghost use Rattle.conf_state.specs.Endings.{EndsOnDraft, refused_on_draft};

    type Target = Draft;

    ghost configs = { λ editor draft. drafted (O.configs editor.origin.now) draft };

    ghost IsReady = { λ editor draft. IsDraftOf (O.configs editor.origin.now) draft };

    ghost Ends = { λ editor. EndsOnDraft (O.configs editor.origin.now) };

    fn has(&self, target: &Draft, name: &str) -> bool {
        target.has(self.origin, name)
    }

    fn put(&self, target: &mut Draft, name: String, config: Config) -> Result<(), StoreFault> {
        let length = target.length_with(self.origin, &name, &config)?;
        target.touched.put(name, config)?;
        target.length = length;
        Ok(())
    }

    fn edit(
        &self,
        alloc: Global,
        target: &mut Draft,
        name: String,
        pointer: &str,
        edit: PathEdit,
    ) -> Result<(), StoreFault> {
        let change = target.edit_uncounted(alloc, self.origin, name, pointer, edit)?;
        target.length = length_changed(target.length, change)?;
        Ok(())
    }

    fn remove(&self, target: &mut Draft, name: String) -> Result<(), StoreFault> {
        let length = target.length_without(self.origin, &name);
        target.touched.remove(&name);
        target.removed.insert(name)?;
        target.length = length;
        Ok(())
    }

    ghost refused = { λ editor draft fault. refused_on_draft (O.configs editor.origin.now) draft fault };
}
