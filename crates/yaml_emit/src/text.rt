// The one style, written into a text.
ghost use Rattle.std.specs.Prelude.{◌≡◌, string_bytes, IfOk};
ghost use Rattle.std.specs.Str.{chars};
ghost use Rattle.yaml_grammar.specs.Style.{style_text};
ghost use Rattle.yaml_data.specs.Seen.{tree_of};

use std::alloc::{AllocError, Global};
use yaml_config::Config;
use yaml_writer::write_style;

/// The text of a configuration in the one style, through the end of its last line. It takes time linear in the text's
/// length, and memory once, for the text. It fails only if memory runs out.
pub fn style_text(alloc: Global, config: &Config) -> Result<String, AllocError>
    ensures { IfOk result (λ text. chars (string_bytes text) ≡ style_text (tree_of config.now)) }
{
    let mut text = String::with_capacity(alloc, config.style_length() as usize)?;
    write_style(config.tree(), &mut text)?;
    Ok(text)
}
