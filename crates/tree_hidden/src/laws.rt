// A law of what is shown, over the definitions alone.
ghost use Rattle.std.specs.Prelude.{◌≡◌, []};
ghost use Rattle.tree_hidden.specs.Prelude.{Tree, json_text};
ghost use Rattle.tree_hidden.specs.Hidden.{shown_json};

/// Where nothing is hidden, the JSON text is shown whole.
pub fn nothing_hidden_is_json()
    ensures { (t : Tree) → shown_json [] t ≡ json_text t }
{}
