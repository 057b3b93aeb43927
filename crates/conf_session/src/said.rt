// What command documents say.
ghost use Rattle.std.specs.Prelude.{◌≡◌, [], ◌∷◌, false, Some, IfOk, MatchOption, is_some};
ghost use Rattle.conf_session.specs.Prelude.{chars, mapping, sequence, text, IsKept, tree_of, elements_of, members_of};
ghost use Rattle.conf_session.specs.Prelude.{text_bytes, values, AreKept, AreKeptElements, conditions_of};
ghost use Rattle.conf_session.specs.Said.{Says, said_by, part_from, part_said, parts_of, parts_said, batch_said};
ghost use Rattle.conf_session.specs.Said.{begins_with_if, change_said, conditional_said, with_conditions};
ghost use Rattle.conf_session.specs.Said.{are_two_texts, get_said, export_said, names_said, checkpoint_said, is_empty_text, nothing};
ghost use Rattle.conf_session.specs.Said.{command_said, fault_said, last_about, said_of, with_about};

use crate::command_lines::said_in_lines;
use crate::conditions::conditions_in;
use crate::parts::{Part, part_from, parts_of};
use conf_about::{About, AboutFault};
use conf_conditions::Condition;
use conf_record::{is_same, keys_are, last_text, last_value, next_text, split_first};
use std::alloc::{AllocError, Global};
use yaml_tree::{Limits, ReadFault, Text, Tree, read_one};

/// The most bytes of a piece of a session, which is a command document, or of what comes after the last one.
pub(crate) const PIECE_LIMIT: u64 = 16_777_216;

/// The limits of a command document: its bytes, its depth, and its bytes in the one style.
const COMMAND_LIMITS: Limits = Limits {
    bytes: PIECE_LIMIT,
    depth: Limits::KEPT.depth,
    style: 67_108_864,
};

/// What a command document says.
#[derive(Drop)]
pub(crate) enum Said {
    /// `import`, `set` or `delete`.
    Single(Part),
    /// `batch`, with its elements in order.
    Batch(Vec<Part>),
    /// `get`.
    Get {
        name: Text,
        path: Text,
    },
    /// `export`.
    Export(Text),
    /// `names`.
    Names,
    /// `checkpoint`.
    Checkpoint,
    /// `import`, `set`, `delete` or `batch`, after conditions.
    Conditional {
        conditions: Vec<Condition>,
        change: Change,
    },
    /// `import`, `set`, `delete` or `batch`, with an about.
    Noted {
        change: Change,
        about: About,
    },
    /// The same after conditions.
    ConditionalNoted {
        conditions: Vec<Condition>,
        change: Change,
        about: About,
    },
    /// Its about has a longer key, more pairs or more bytes than an about may have.
    LargeAbout,
    /// It is no command.
    Nothing,
}

/// A command that changes configurations, without its conditions and its about.
#[derive(Drop)]
pub(crate) enum Change {
    /// `import`, `set` or `delete`.
    Single(Part),
    /// `batch`, with its elements in order.
    Batch(Vec<Part>),
}

/// Reads a piece as a command document: a mapping with exactly the keys of a command, in their order, whose values are
/// of the kinds that it takes. Any spelling of the document counts. A piece that gives no tree within the limits of a
/// command (16,777,216 bytes, 131 deep, and 67,108,864 bytes in the one style), or another tree, says
/// [`Nothing`](Said::Nothing). It fails only if memory runs out.
///
/// A command that changes configurations, with or without conditions, may have a last key `about`, whose value is an
/// [`About`]. Where the first fault of that value is a limit of abouts (64 characters of a key, 16 pairs, 4,096 bytes),
/// the document says [`LargeAbout`](Said::LargeAbout), whatever its other keys are. With any other fault, and where
/// another command has such a key, it says [`Nothing`](Said::Nothing).
pub(crate) fn read_said(alloc: Global, piece: &[u8]) -> Result<Said, AllocError>
    ensures { IfOk result (λ said. Says piece.now (said_of said)) }
{
    match said_in_lines(alloc, piece)? {
        Some(said) => Ok(said),
        None => read_any(alloc, piece),
    }
}

/// Reads a piece as a command document by the general reader, as for [`read_said`].
fn read_any(alloc: Global, piece: &[u8]) -> Result<Said, AllocError>
    ensures { IfOk result (λ said. Says piece.now (said_of said)) }
{
    match read_one(alloc, piece, &COMMAND_LIMITS) {
        Ok(config) => said_by(alloc, config.into_tree()),
        Err(ReadFault::OutOfMemory) => Err(AllocError),
        Err(_) => Ok(Said::Nothing),
    }
}

/// What a document's tree says.
fn said_by(alloc: Global, tree: Tree) -> Result<Said, AllocError>
    requires { IsKept (tree_of tree) }
    ensures { IfOk result (λ said. said_of said ≡ said_by (tree_of tree)) }
{
    match tree {
        Tree::Text(_) => Ok(Said::Nothing),
        Tree::Seq(_) => Ok(Said::Nothing),
        Tree::Map(pairs) => mapping_said(alloc, pairs),
    }
}

/// What a mapping says: a command, which may have an about as its last pair. Whether that is one is looked at before
/// the command.
fn mapping_said(alloc: Global, mut pairs: Vec<(Text, Tree)>) -> Result<Said, AllocError>
    requires { AreKept (values (members_of pairs.items)) }
    ensures { IfOk result (λ said. said_of said ≡ said_by (mapping (members_of pairs.items))) }
{
    if !ends_with_about(&pairs) {
        return command_said(alloc, pairs);
    }
    let Some((_, tree)) = pairs.pop() else {
        return Ok(Said::Nothing);
    };
    match About::of(tree) {
        Ok(about) => {
            let said = command_said(alloc, pairs)?;
            Ok(with_about(about, said))
        }
        Err((_, fault)) => Ok(fault_said(fault)),
    }
}

/// Whether the last key of a mapping's pairs is `about`.
fn ends_with_about(pairs: &[(Text, Tree)]) -> bool
    ensures { result ≡ is_some (last_about (members_of pairs.now)) }
{
    match pairs.split_last() {
        Some(((key, _), _)) => is_same(key, "about"),
        None => false,
    }
}

/// A command that changes configurations, with an about; any other has none, and is no command then.
fn with_about(about: About, said: Said) -> Said
    ensures { said_of result ≡ with_about (tree_of about) (said_of said) }
{
    match said {
        Said::Single(part) => Said::Noted {
            change: Change::Single(part),
            about,
        },
        Said::Batch(parts) => Said::Noted {
            change: Change::Batch(parts),
            about,
        },
        Said::Conditional { conditions, change } => Said::ConditionalNoted {
            conditions,
            change,
            about,
        },
        _ => Said::Nothing,
    }
}

/// What a command says whose last value is no about, for this reason.
fn fault_said(fault: AboutFault) -> Said
    ensures { said_of result ≡ fault_said fault }
{
    match fault {
        AboutFault::LongKey => Said::LargeAbout,
        AboutFault::TooMany => Said::LargeAbout,
        AboutFault::TooLarge => Said::LargeAbout,
        AboutFault::NoMapping => Said::Nothing,
        AboutFault::NoText => Said::Nothing,
        AboutFault::NoKey => Said::Nothing,
        AboutFault::Twice => Said::Nothing,
        AboutFault::OutOfMemory => Said::Nothing,
    }
}

/// What a mapping says that is a command without an about, or else no command.
fn command_said(alloc: Global, pairs: Vec<(Text, Tree)>) -> Result<Said, AllocError>
    requires { AreKept (values (members_of pairs.items)) }
    ensures { IfOk result (λ said. said_of said ≡ command_said (members_of pairs.items)) }
{
    if keys_are(&["batch"], &pairs) {
        batch_said(alloc, pairs)
    } else if keys_are(&["get", "path"], &pairs) {
        Ok(get_said(pairs))
    } else if keys_are(&["export"], &pairs) {
        Ok(export_said(pairs))
    } else if keys_are(&["names"], &pairs) {
        Ok(names_said(pairs))
    } else if keys_are(&["checkpoint"], &pairs) {
        Ok(checkpoint_said(pairs))
    } else if begins_with_if(&pairs) {
        conditional_said(alloc, pairs)
    } else {
        part_said(alloc, pairs)
    }
}

/// Whether the first key of a mapping's pairs is `if`.
fn begins_with_if(pairs: &[(Text, Tree)]) -> bool
    ensures { result ≡ begins_with_if (members_of pairs.now) }
{
    if pairs.is_empty() {
        return false;
    }
    is_same(&pairs[0].0, "if")
}

/// What a mapping says whose first value is a list of conditions: the command of the other pairs, or no command.
fn conditional_said(alloc: Global, pairs: Vec<(Text, Tree)>) -> Result<Said, AllocError>
    requires { AreKept (values (members_of pairs.items)) }
    ensures { IfOk result (λ said. said_of said ≡ conditional_said (members_of pairs.items)) }
{
    let Some((first, rest)) = split_first(pairs) else {
        return Ok(Said::Nothing);
    };
    let Some(conditions) = conditions_in(alloc, first.1)? else {
        return Ok(Said::Nothing);
    };
    let said = change_said(alloc, rest)?;
    Ok(with_conditions(conditions, said))
}

/// What a mapping says that changes configurations, or else no command.
fn change_said(alloc: Global, pairs: Vec<(Text, Tree)>) -> Result<Said, AllocError>
    requires { AreKept (values (members_of pairs.items)) }
    ensures { IfOk result (λ said. said_of said ≡ change_said (members_of pairs.items)) }
{
    if keys_are(&["batch"], &pairs) {
        batch_said(alloc, pairs)
    } else {
        part_said(alloc, pairs)
    }
}

/// A command that changes configurations, after its conditions; any other has none, and is no command then.
pub(crate) fn with_conditions(conditions: Vec<Condition>, said: Said) -> Said
    ensures { said_of result
        ≡ with_conditions (Some (conditions_of conditions.items)) (said_of said) }
{
    match said {
        Said::Single(part) => Said::Conditional {
            conditions,
            change: Change::Single(part),
        },
        Said::Batch(parts) => Said::Conditional {
            conditions,
            change: Change::Batch(parts),
        },
        _ => Said::Nothing,
    }
}

/// What a mapping says that is a part, or else no command.
fn part_said(alloc: Global, pairs: Vec<(Text, Tree)>) -> Result<Said, AllocError>
    requires { AreKept (values (members_of pairs.items)) }
    ensures { IfOk result (λ said. said_of said ≡ part_said (part_from (members_of pairs.items))) }
{
    let found = part_from(alloc, pairs)?;
    match found {
        Some(part) => Ok(Said::Single(part)),
        None => Ok(Said::Nothing),
    }
}

/// What a `batch` says: its one value is a sequence, or it is no command.
fn batch_said(alloc: Global, pairs: Vec<(Text, Tree)>) -> Result<Said, AllocError>
    requires { AreKept (values (members_of pairs.items)) }
    ensures { IfOk result (λ said. said_of said ≡ batch_said (values (members_of pairs.items))) }
{
    match batch_elements(pairs) {
        Some(elements) => elements_said(alloc, elements),
        None => Ok(Said::Nothing),
    }
}

/// The elements of the one value, if that is a sequence.
fn batch_elements(pairs: Vec<(Text, Tree)>) -> Option<Vec<Tree>>
    ensures { MatchOption result (batch_said (values (members_of pairs.items)) ≡ nothing)
        (λ v. values (members_of pairs.items) ≡ sequence (elements_of v.items) ∷ []) }
{
    match last_value(pairs.into_iter())? {
        Tree::Text(_) => None,
        Tree::Seq(elements) => Some(elements),
        Tree::Map(_) => None,
    }
}

/// What the elements of a batch say: each is a part, or it is no command.
fn elements_said(alloc: Global, elements: Vec<Tree>) -> Result<Said, AllocError>
    requires { AreKeptElements (elements_of elements.items) }
    ensures { IfOk result (λ said. said_of said
        ≡ parts_said (parts_of (elements_of elements.items))) }
{
    let found = parts_of(alloc, elements)?;
    match found {
        Some(parts) => Ok(Said::Batch(parts)),
        None => Ok(Said::Nothing),
    }
}

fn get_said(pairs: Vec<(Text, Tree)>) -> Said
    ensures { said_of result ≡ get_said (values (members_of pairs.items)) }
{
    match two_texts(pairs) {
        Some((name, path)) => Said::Get { name, path },
        None => Said::Nothing,
    }
}

/// The two values, if they are two texts.
fn two_texts(pairs: Vec<(Text, Tree)>) -> Option<(Text, Text)>
    ensures { MatchOption result (are_two_texts (values (members_of pairs.items)) ≡ false)
        (λ v. values (members_of pairs.items)
        ≡ text (chars (text_bytes v.0)) ∷ text (chars (text_bytes v.1)) ∷ []) }
{
    let mut values = pairs.into_iter();
    let one = next_text(&mut values)?;
    let other = last_text(values)?;
    Some((one, other))
}

fn export_said(pairs: Vec<(Text, Tree)>) -> Said
    ensures { said_of result ≡ export_said (values (members_of pairs.items)) }
{
    match last_text(pairs.into_iter()) {
        Some(name) => Said::Export(name),
        None => Said::Nothing,
    }
}

fn names_said(pairs: Vec<(Text, Tree)>) -> Said
    ensures { said_of result ≡ names_said (values (members_of pairs.items)) }
{
    if is_empty_text(pairs) {
        Said::Names
    } else {
        Said::Nothing
    }
}

fn checkpoint_said(pairs: Vec<(Text, Tree)>) -> Said
    ensures { said_of result ≡ checkpoint_said (values (members_of pairs.items)) }
{
    if is_empty_text(pairs) {
        Said::Checkpoint
    } else {
        Said::Nothing
    }
}

/// Whether the one value of the pairs is the empty text.
fn is_empty_text(pairs: Vec<(Text, Tree)>) -> bool
    ensures { result ≡ is_empty_text (values (members_of pairs.items)) }
{
    match last_text(pairs.into_iter()) {
        Some(text) => is_same(&text, ""),
        None => false,
    }
}
