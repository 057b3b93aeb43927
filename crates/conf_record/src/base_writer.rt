// The base text of a state: the document that holds all of it.
ghost use Rattle.std.specs.Prelude.{◌≡◌, string_bytes, encode_utf8_all, IfOk, OnOk};
ghost use Rattle.conf_record.specs.Prelude.{chars};
ghost use Rattle.conf_record.specs.BaseStart.{base_head, base_start};
ghost use Rattle.conf_record.specs.Formats.{base_in, base_text_in};

use crate::format::Format;
use crate::record::write_number;
use conf_state::State;
use std::alloc::{AllocError, Global};
use yaml_tree::Sink;

/// The base text of a state in a format: an explicit document (YAML 1.2.2, 9.1.4). It is a line of `---`, a mapping in
/// the one style and a line of `...`. The mapping holds, in this order, the format (`store`), the count of accepted
/// commands as decimal digits (`at`), and the configurations by name, in their order (`configs`). It takes time linear
/// in the text's length, and memory once, for the text, which has at most 67,108,864 bytes. It fails only if memory
/// runs out.
pub fn base_text(alloc: Global, state: &State, format: Format) -> Result<String, AllocError>
    ensures text { IfOk result (λ text. chars (string_bytes text) ≡ base_text_in format state.now) }
    ensures bytes { IfOk result (λ text. string_bytes text ≡ base_in format state.now) }
{
    let mut text = String::with_capacity(alloc, state.base_length() as usize)?;
    write_base(state, format, &mut text)?;
    Ok(text)
}

/// Writes the base text of a state in a format. It fails only if the sink does.
fn write_base<S: Sink>(state: &State, format: Format, sink: &mut S) -> Result<(), S::Fault>
    ensures { OnOk result (S.Takes sink.old (base_text_in format state.now) sink.new) }
{
    write_head(format, state.count(), sink)?;
    state.write_configs(sink)?;
    sink.put_text("...\n")
}

/// The base text of a state in a format ([`base_text`](crate::base_text)), up to its configurations. After it each of
/// them is as [`State::write_entry`] writes it, in their order, and then a line of `...`. It fails only if memory runs
/// out.
pub fn base_start(alloc: Global, state: &State, format: Format) -> Result<String, AllocError>
    ensures { IfOk result (λ text. string_bytes text
        ≡ encode_utf8_all (base_start format state.now)) }
{
    let mut text = String::new(alloc);
    write_start(state, format, &mut text)?;
    Ok(text)
}

/// Writes the start of a base text in a format. It fails only if the sink does.
fn write_start<S: Sink>(state: &State, format: Format, sink: &mut S) -> Result<(), S::Fault>
    ensures { OnOk result (S.Takes sink.old (base_start format state.now) sink.new) }
{
    write_head(format, state.count(), sink)?;
    match state.names().next() {
        Some(_) => sink.put_text("\n"),
        None => sink.put_text(" {}\n"),
    }
}

/// Writes what is before the configurations: the line of `---`, the format, the count, and the key of the
/// configurations through its `:`.
fn write_head<S: Sink>(format: Format, count: u64, sink: &mut S) -> Result<(), S::Fault>
    ensures { OnOk result (S.Takes sink.old (base_head format count) sink.new) }
{
    sink.put_text("---\n")?;
    sink.put_text(format.line())?;
    write_number(count, sink)?;
    sink.put_text("configs:")
}
