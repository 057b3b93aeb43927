// Signs of a text between its scalars.
ghost use Rattle.std.specs.Prelude.{◌≡◌, ◌≤◌, slice_index};
ghost use Rattle.yaml_chars.specs.Classes.{line_break};
ghost use Rattle.comments_kept.specs.Signs as sign;

/// The first byte from one on that is none of whitespace, a `,`, a comment and a directive.
pub(crate) fn next_sign(bytes: &[u8], from: usize) -> usize
    ensures { result ≡ sign.next_sign bytes.now from }
{
    let mut hidden = false;
    for at in from..bytes.len() {
        let byte = bytes[at];
        if !is_skipped(hidden, byte) {
            return at;
        }
        hidden = is_hidden(hidden, byte);
    }
    from.max(bytes.len())
}

/// Whether a byte is no sign, in a comment or a directive or not.
fn is_skipped(hidden: bool, byte: u8) -> bool
    ensures { result ≡ sign.is_skipped hidden byte }
{
    hidden || matches!(byte, b' ' | b'\t' | b'\n' | b'\r' | b',' | b'#' | b'%')
}

/// Whether the byte behind one is in a comment or a directive.
fn is_hidden(hidden: bool, byte: u8) -> bool
    ensures { result ≡ sign.is_hidden hidden byte }
{
    !is_break(byte) && (hidden || byte == b'#' || byte == b'%')
}

/// The byte behind the next sign.
pub(crate) fn after_sign(bytes: &[u8], from: usize) -> usize
    ensures { result ≡ sign.after_sign bytes.now from }
{
    let at = next_sign(bytes, from);
    if at < bytes.len() { at + 1 } else { at }
}

/// The `:` that is the next sign, or the same byte if another one is.
pub(crate) fn colon_at(bytes: &[u8], from: usize) -> usize
    ensures { result ≡ sign.colon_at bytes.now from }
{
    let at = next_sign(bytes, from);
    if byte_at(bytes, at) == b':' { at } else { from }
}

/// The byte behind the header of a block scalar that begins at another one (YAML 1.2.2, 8.1.1).
pub(crate) fn after_header(bytes: &[u8], from: usize) -> usize
    ensures { result ≡ sign.after_header bytes.now from }
{
    for at in from..bytes.len() {
        if !is_header(bytes[at]) {
            return at;
        }
    }
    from.max(bytes.len())
}

/// Whether a byte may be in the header of a block scalar.
fn is_header(byte: u8) -> bool
    ensures { result ≡ sign.is_header byte }
{
    byte == b'|' || byte == b'>' || byte == b'-' || byte == b'+' || (b'0' <= byte && byte <= b'9')
}

/// The byte at which the node of a document begins: behind the directives and the `---`, if they are there.
pub(crate) fn start_of_content(bytes: &[u8]) -> usize
    ensures { result ≡ sign.start_of_content bytes.now }
{
    let at = next_sign(bytes, after_order_mark(bytes));
    if is_marker(bytes, at) { at + 3 } else { at }
}

/// The byte behind a byte order mark, or the first one.
fn after_order_mark(bytes: &[u8]) -> usize
    ensures { result ≡ sign.after_order_mark bytes.now }
{
    if byte_at(bytes, 0) == 0xef && byte_at(bytes, 1) == 0xbb && byte_at(bytes, 2) == 0xbf {
        3
    } else {
        0
    }
}

/// Whether a `---` begins at a byte.
pub(crate) fn is_marker(bytes: &[u8], at: usize) -> bool
    ensures { result ≡ sign.is_marker bytes.now at }
{
    if byte_at(bytes, at) != b'-' {
        return false;
    }
    if byte_at(bytes, at + 1) != b'-' {
        return false;
    }
    byte_at(bytes, at + 2) == b'-'
}

/// The byte at which the line of another one begins.
pub(crate) fn line_start(bytes: &[u8], at: usize) -> usize
    ensures is { result ≡ sign.line_start bytes.now at }
    ensures before { result ≤ at }
{
    let mut start = at;
    while start > 0 {
        if is_break(byte_at(bytes, start - 1)) {
            return start;
        }
        start -= 1;
    }
    start
}

/// A byte of a text, or 0 behind it.
pub(crate) fn byte_at(bytes: &[u8], at: usize) -> u8
    ensures { result ≡ slice_index bytes.now at }
{
    match bytes.get(at) {
        Some(byte) => *byte,
        None => 0,
    }
}

/// Whether a byte is an LF or a CR.
pub(crate) fn is_break(byte: u8) -> bool
    ensures { result ≡ line_break byte }
{
    byte == b'\n' || byte == b'\r'
}
