// The names of the configurations that a draft makes of an origin's.
ghost use Rattle.std.specs.Prelude.{◌≡◌, map, IfOk};
ghost use Rattle.conf_state.specs.Commands.{text_of};
ghost use Rattle.conf_state.specs.Drafts.{cut_all, drafted, texts_of, IsDraftOf};
ghost use Rattle.conf_state.specs.States.{names_of};

use crate::draft::Draft;
use crate::origin::Origin;
use std::alloc::{AllocError, Global};

impl Draft {
    /// The names, in order. It fails only if memory runs out.
    pub(crate) fn names<O: Origin>(
        &self,
        alloc: Global,
        origin: &O,
    ) -> Result<Vec<String>, AllocError>
        requires { IsDraftOf (O.configs origin.now) self.now }
        ensures { IfOk result (λ names.
            map text_of names.items ≡ names_of (drafted (O.configs origin.now) self.now)) }
    {
        let mut names = self.names_left(alloc, origin)?;
        for (name, _) in self.touched.iter() {
            if !self.leaves(origin, name) {
                names.push(String::from_str(alloc, name)?)?;
            }
        }
        Ok(names)
    }

    /// The names of the origin that are not removed, in order.
    fn names_left<O: Origin>(&self, alloc: Global, origin: &O) -> Result<Vec<String>, AllocError>
        requires { IsDraftOf (O.configs origin.now) self.now }
        ensures { IfOk result (λ names. map text_of names.items
            ≡ names_of (cut_all (O.configs origin.now) (texts_of self.now.removed.keys))) }
    {
        let mut left = Vec::new(alloc);
        for name in origin.all_names(alloc)? {
            if !self.removed.contains(&name) {
                left.push(name)?;
            }
        }
        Ok(left)
    }
}
