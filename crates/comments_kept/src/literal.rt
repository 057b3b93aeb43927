// Literals (YAML 1.2.2, 8.1.2).
ghost use Rattle.std.specs.Prelude.{true, OnOk};
ghost use Rattle.std.specs.Str.{chars};
ghost use Rattle.yaml_grammar.specs.Style.{literal_lines};
ghost use Rattle.yaml_writer.specs.Lines.{line_text};

use crate::lines::split_line;
use yaml_writer::Sink;

/// Writes a text as the lines of a literal, each after `indent` spaces and with its line feed; an empty line has no
/// spaces. The literal's header is not written. It fails only if the sink does.
pub(crate) fn write_literal_lines<S: Sink>(
    text: &str,
    indent: u64,
    sink: &mut S,
) -> Result<(), S::Fault>
    ensures { OnOk result (S.Takes sink.old (literal_lines indent true (chars text.now)) sink.new) }
{
    let mut rest = text;
    while let Some((line, after)) = split_line(rest) {
        write_line(line, indent, sink)?;
        rest = after;
    }
    if rest.is_empty() {
        return Ok(());
    }
    write_line(rest, indent, sink)
}

/// Writes one line of a literal: after `indent` spaces, or with none if it is empty, and with its line feed.
fn write_line<S: Sink>(line: &str, indent: u64, sink: &mut S) -> Result<(), S::Fault>
    ensures { OnOk result (S.Takes sink.old (line_text indent (chars line.now)) sink.new) }
{
    if line.is_empty() {
        return sink.put_char('\n');
    }
    sink.put_spaces(indent)?;
    sink.put_text(line)?;
    sink.put_char('\n')
}
