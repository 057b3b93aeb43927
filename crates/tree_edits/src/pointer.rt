// The pointer to the first steps of a path.
ghost use Rattle.std.specs.Prelude.{◌≡◌, ℕ, List};
ghost use Rattle.tree_edits.specs.Prelude.{parents_of, pointer_text};
ghost use Rattle.tree_edits.specs.Changes.{text_of};
ghost use Rattle.tree_edits.specs.Parents.{without_last};

/// Cuts off the last steps of a pointer, so many of them.
pub(crate) fn cut_steps(pointer: &mut String, count: usize)
    ensures steps { (steps : List (List ℕ)) → text_of pointer.old ≡ pointer_text steps
        → text_of pointer.new ≡ pointer_text (without_last count steps) }
    ensures none { count ≡ 0 → text_of pointer.new ≡ text_of pointer.old }
{
    for _ in 0..count {
        cut_step(pointer);
    }
}

/// Cuts off the last step of a pointer. The empty pointer has none, and stays.
pub(crate) fn cut_step(pointer: &mut String)
    ensures { (steps : List (List ℕ)) → text_of pointer.old ≡ pointer_text steps
        → text_of pointer.new ≡ pointer_text (parents_of steps) }
{
    let end = pointer.rfind('/').unwrap_or(0);
    pointer.truncate(end);
}
