// What is taken back.
ghost use Rattle.std.specs.Prelude.{◌≡◌, List, Ok};
ghost use Rattle.conf_diff.specs.Prelude.{Command, Contents, IsState, after};
ghost use Rattle.conf_diff.specs.Freely.{all_freely_edited};
ghost use Rattle.conf_diff.specs.StateEdits.{entry_edits};

/// What commands changed is taken back by the edits from the state after them to the one before them: these make the
/// configurations that were, in their order, where no limit is in the way.
pub fn undo_gives_what_was()
    ensures { (was now : Contents) (commands : List Command) → IsState was → IsState now
        → after was commands ≡ Ok now
        → all_freely_edited now.configs (entry_edits now.configs was.configs) ≡ Ok was.configs }
{}
