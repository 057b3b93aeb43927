// The `%YAML` directive (YAML 1.2.2, 6.8.1).
ghost use Rattle.std.specs.Prelude.{◌≡◌, nat_lt, true, Some, None, IfSome, IfNone};
ghost use Rattle.yaml_docs.specs.Prelude.{IsCharBoundary, rest, list_all, begins};
ghost use Rattle.yaml_docs.specs.Directives.{IsDirective, NoDirective, IsVersion};

use yaml_scan::{Line, line_after, white_end};

/// Returns the first line after the `%YAML` directive at `at` that holds more than whitespace and a comment.
/// Returns None if there is no such directive there, or its version is neither 1.1 nor 1.2.
pub(crate) fn directive_end(text: &str, at: usize) -> Option<Line>
    requires { IsCharBoundary text.now at }
    ensures found { IfSome result (IsDirective text.now at) }
    ensures none { IfNone result (NoDirective (rest text.now at)) }
{
    let Some(version) = version_end(text, at) else {
        return None;
    };
    line_after(text, version)
}

/// Returns the place after `%YAML`, whitespace, and the version 1.1 or 1.2. Returns None if these are not at `at`.
fn version_end(text: &str, at: usize) -> Option<usize>
    requires { IsCharBoundary text.now at }
    ensures found { IfSome result (IsVersion text.now at) }
    ensures none { IfNone result (NoDirective (rest text.now at)) }
{
    if !begins_at(text, at, b"%YAML") {
        return None;
    }
    let version = white_end(text, at + 5);
    if version == at + 5 {
        return None;
    }
    if begins_at(text, version, b"1.1") {
        return Some(version + 3);
    }
    if begins_at(text, version, b"1.2") {
        return Some(version + 3);
    }
    None
}

/// Returns whether these ASCII characters are at `at`.
fn begins_at(text: &str, at: usize, word: &[u8]) -> bool
    requires at { IsCharBoundary text.now at }
    requires ascii { list_all (λ character. nat_lt character 128) word.now ≡ true }
    ensures { result ≡ begins word.now (rest text.now at) }
{
    text.as_bytes()[at..].starts_with(word)
}
