// Line feeds in the value of a scalar.
ghost use Rattle.std.specs.Prelude.{◌≡◌, ◌++◌, OnOk};
ghost use Rattle.yaml_scan.specs.Prelude.{line_feeds};
ghost use Rattle.std.specs.String.{string_bytes};

use std::alloc::AllocError;

/// Appends `count` line feeds to a value. If memory runs out, the value may have some of them.
pub fn push_line_feeds(value: &mut String, count: usize) -> Result<(), AllocError>
    ensures { OnOk result (string_bytes value.new ≡ string_bytes value.old ++ line_feeds count) }
{
    for _ in 0..count {
        value.push('\n')?;
    }
    Ok(())
}
