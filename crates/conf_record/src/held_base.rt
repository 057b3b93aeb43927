// The base of a store, kept as its text.
ghost use Rattle.std.specs.Prelude.{◌≡◌, map, option_map, is_some, string_bytes, IfOk, IfErr};
ghost use Rattle.conf_record.specs.Prelude.{chars, byte_len, tree_of, entries_length, text_of, IsState, Contents};
ghost use Rattle.conf_record.specs.Prelude.{names_of, config_named};
ghost use Rattle.conf_state.specs.EntryTexts.{entry_named};
ghost use Rattle.conf_record.specs.BaseSpans.{IsBuilt, bytes_at, names_under};
ghost use Rattle.conf_record.specs.Documents.{IsBase};
ghost use Rattle.conf_record.specs.HeldBases.{Held, Held-prop};

use crate::base_spans::{Found, Span, Spans, lines_at};
use crate::documents::documents_are_read;
use crate::entries::read_entry;
use crate::fields::is_same;
use crate::read::read_base;
use conf_state::Origin;
use std::alloc::{AllocError, Global};
use std::marker::Model;
use yaml_styled::Miss;
use yaml_tree::{Config, Limits};

/// The base of a store, kept as its text. A configuration is built only when a copy of it is asked for. Contracts see
/// the state whose base it is.
#[derive(Drop)]
pub struct BaseText {
    text: String,
    found: Found,
    ghost held: { Held (string_bytes text) } by { Held-prop (string_bytes text) },
}

impl Model for BaseText {
    ghost use Rattle.conf_state.specs.States.{Contents};
    ghost use Rattle.conf_state.specs.TreeCode.{contents_code};

    ghost Value = { Contents };

    ghost coded = { contents_code };

    ghost use Rattle.std.specs.Prelude.{string_bytes};
    ghost use Rattle.conf_record.specs.BaseSpans.{IsFound};

    ghost view = { λ b. b.held.0 };

    ghost invariant = { λ b.
        IsFound (string_bytes b.text) b.found.spans.entries b.found.count b.found.total b.held.0 };
}

impl BaseText {
    /// The base that the bytes are, if they are the very text that [`base_text`](crate::base_text) writes for a state
    /// with a configuration. It takes the bytes, and copies none of them.
    ///
    /// # Errors
    ///
    /// The bytes, with [`Miss::OtherForm`] if they are something else, and with [`Miss::OutOfMemory`] if memory runs
    /// out. Bytes of another form may still be a base ([`read_base`]).
    pub fn read(alloc: Global, bytes: Vec<u8>) -> Result<BaseText, (Vec<u8>, Miss)>
        ensures ok { IfOk result (λ base. IsBase bytes.items base) }
        ensures refused { IfErr result (λ refused. refused.0 ≡ bytes) }
    {
        documents_are_read();
        let text = match String::from_utf8(bytes) {
            Ok(text) => text,
            Err(fault) => return Err((fault.into_bytes(), Miss::OtherForm)),
        };
        match Found::of(alloc, &text) {
            Ok(found) => Ok(BaseText { text, found }),
            Err(miss) => Err((text.into_bytes(), miss)),
        }
    }

    /// How many commands were accepted.
    pub fn count(&self) -> u64
        ensures count { result ≡ self.now.count }
        ensures limits { IsState self.now }
    {
        self.found.count
    }
}

impl Origin for BaseText {
    ghost configs = { λ base. base.configs };

    fn has(&self, name: &str) -> bool {
        self.found.spans.get(name).is_some()
    }

    fn length_of(&self, name: &str) -> u64 {
        match self.found.spans.get(name) {
            Some(span) => span.length() as u64,
            None => 0,
        }
    }

    fn copy_of(&self, alloc: Global, name: &str) -> Result<Option<Config>, AllocError> {
        documents_are_read();
        let Some(span) = self.found.spans.get(name) else {
            return Ok(None);
        };
        match build(alloc, &self.text, span, name) {
            Ok(config) => Ok(Some(config)),
            // It doesn't come to this: what is skipped can be read. But no contract says so.
            Err(Miss::OtherForm) => copy_in_base(alloc, self.text.as_bytes(), name),
            Err(Miss::OutOfMemory) => Err(AllocError),
        }
    }

    fn all_names(&self, alloc: Global) -> Result<Vec<String>, AllocError> {
        names_in(alloc, &self.found.spans)
    }

    fn total_length(&self) -> u64 {
        self.found.total
    }
}

/// The names of spans, in order.
fn names_in(alloc: Global, spans: &Spans) -> Result<Vec<String>, AllocError>
    ensures { IfOk result (λ names. map text_of names.items ≡ names_under spans.now.entries) }
{
    let mut names = Vec::new(alloc);
    for (name, _) in spans.iter() {
        names.push(String::from_str(alloc, name)?)?;
    }
    Ok(names)
}

/// The configuration under a name whose lines are at a span.
fn build(alloc: Global, text: &str, span: &Span, name: &str) -> Result<Config, Miss>
    ensures { IfOk result (λ config.
        IsBuilt (bytes_at text.now span.now) (chars name.now) (tree_of config)) }
{
    let Some(lines) = lines_at(text, span) else {
        return Err(Miss::OtherForm);
    };
    let entry = read_entry(alloc, lines)?;
    if !entry.rest.is_empty() || !is_same(&entry.name, name) {
        return Err(Miss::OtherForm);
    }
    if entry.size.bytes > u128::from(Limits::CONFIGURATION.style) {
        return Err(Miss::OtherForm);
    }
    Ok(Config::with_size(entry.tree, entry.size))
}

/// A copy of the configuration under a name in a base; `None` if no configuration has the name. It builds all of them.
fn copy_in_base(alloc: Global, bytes: &[u8], name: &str) -> Result<Option<Config>, AllocError>
    requires { (s : Contents) × IsBase bytes.now s }
    ensures { IfOk result (λ copy. (s : Contents) × IsBase bytes.now s
        × (option_map tree_of copy ≡ config_named s.configs (chars name.now))) }
{
    let Some(state) = read_base(alloc, bytes)? else {
        unreachable!();
    };
    match state.get(name) {
        Some(config) => Ok(Some(config.try_copy(alloc)?)),
        None => Ok(None),
    }
}
