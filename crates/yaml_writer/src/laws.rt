// Laws of lengths in the one style, over the definitions alone.
ghost use Rattle.std.specs.Prelude.{◌≡◌, ℕ, List};
ghost use Rattle.yaml_writer.specs.Prelude.{byte_len, Tree, key_lines, lines_after_dash, value_at};
ghost use Rattle.yaml_writer.specs.Sizes.{length_at, key_size, element_size, value_size};

/// The length of a key, an element and a value at each indentation follows from its [`Size`](crate::Size). It is the
/// length at the indentation 0, and the indentation once more for each line that is indented.
pub fn lengths_follow_indentation()
    ensures key { (key : List ℕ) (i : ℕ) → byte_len (key_lines i key) ≡ length_at (key_size key) i }
    ensures element { (t : Tree) (i : ℕ) → byte_len (lines_after_dash t i)
        ≡ length_at (element_size t) i }
    ensures value { (t : Tree) (i : ℕ) → byte_len (value_at t i) ≡ length_at (value_size t) i }
{}
