// A law of pointers, over the definitions alone.
ghost use Rattle.std.specs.Prelude.{◌≡◌, ℕ, List, Ok};
ghost use Rattle.json_pointer.specs.Pointers.{path_of, pointer_text};

/// The text of a path is read as that path. So different paths have different texts.
pub fn text_is_read_back()
    ensures { (tokens : List (List ℕ)) → path_of (pointer_text tokens) ≡ Ok tokens }
{}
