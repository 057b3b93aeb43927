// Why a text is refused, where, and what is known of it.
ghost use Rattle.std.specs.Prelude.{◌≡◌, IfOk, MatchOption, Some, length};

use crate::detail::Detail;
use crate::hint::Hint;
use crate::keys::{collection_as_key, repeated_key, second_document, too_deep};
use crate::spot::Spot;
use std::alloc::{AllocError, Global};
use std::fmt;
use yaml_docs::{Place, events, place_at};
use yaml_events::{Events, ReadFault, Why};
use yaml_tree::{Limits, format_one};

/// Why a text is refused, where, and what is known of it. `Display` shows it as a sentence, and
/// [`brief`](Refusal::brief) as a line for an editor.
#[derive(Debug, Drop)]
pub struct Refusal {
    /// The fault.
    pub fault: ReadFault,
    /// The place at fault, if it is at one.
    pub place: Option<Place>,
    /// What is known besides.
    pub detail: Detail,
}

impl Refusal {
    /// Looks for the place of a fault. `bytes` are the text, and `fault` is what [`read_one`](yaml_tree::read_one)
    /// answers for it within `limits`. Of another fault there may be no place and no detail.
    ///
    /// # Errors
    /// It fails only if memory runs out.
    pub fn of(
        alloc: Global,
        bytes: &[u8],
        limits: &Limits,
        fault: ReadFault,
    ) -> Result<Refusal, AllocError>
        ensures fault { IfOk result (λ refusal. refusal.fault ≡ fault) }
        ensures size { fault ≡ ReadFault.TooLong → IfOk result (λ refusal.
            refusal.detail ≡ Detail.Bytes (length bytes.now) limits.now.bytes) }
        ensures nothing { fault ≡ ReadFault.Documents 0 → IfOk result (λ refusal.
            MatchOption refusal.place ⊥ (λ place. (place.line ≡ 1) × (place.column ≡ 1))) }
    {
        match fault {
            ReadFault::TooLong => Ok(Refusal::sized(fault, bytes.len() as u64, limits.bytes)),
            ReadFault::NotUtf8 { at } => Ok(Refusal::at_byte(bytes, at, fault)),
            ReadFault::OutOfMemory => Ok(Refusal::unplaced(fault)),
            ReadFault::LargeInStyle => match style_length(alloc, bytes, limits) {
                Some(found) => Ok(Refusal::sized(fault, found, limits.style)),
                None => Ok(Refusal::unplaced(fault)),
            },
            ReadFault::Syntax { line, column, why } => {
                Ok(Refusal::malformed(bytes, fault, Place { line, column }, why))
            }
            ReadFault::Documents { count: 0 } => Ok(Refusal::of_nothing()),
            fault => Refusal::of_nodes(alloc, bytes, limits, fault),
        }
    }

    /// The refusal in the words that follow a file's name and a place, as `KeyTwice "port" (first at 2:1)`.
    pub fn brief(&self) -> crate::RefusalBrief<'_> {
        crate::RefusalBrief(self)
    }

    fn unplaced(fault: ReadFault) -> Refusal
        ensures { result.fault ≡ fault }
    {
        Refusal {
            fault,
            place: None,
            detail: Detail::None,
        }
    }

    fn sized(fault: ReadFault, found: u64, limit: u64) -> Refusal
        ensures fault { result.fault ≡ fault }
        ensures size { result.detail ≡ Detail.Bytes found limit }
    {
        Refusal {
            fault,
            place: None,
            detail: Detail::Bytes { found, limit },
        }
    }

    /// The refusal of a text that has no document. Its place is where the text begins.
    fn of_nothing() -> Refusal
        ensures fault { result.fault ≡ ReadFault.Documents 0 }
        ensures place { MatchOption result.place ⊥ (λ place. (place.line ≡ 1) × (place.column ≡ 1)) }
    {
        Refusal {
            fault: ReadFault::Documents { count: 0 },
            place: Some(Place { line: 1, column: 1 }),
            detail: Detail::Documents { count: 0 },
        }
    }

    /// The refusal of bytes that are a text up to byte `at`, from 0.
    fn at_byte(bytes: &[u8], at: usize, fault: ReadFault) -> Refusal
        ensures { result.fault ≡ fault }
    {
        Refusal {
            fault,
            place: valid(bytes, at).map(|text| place_at(text, at)),
            detail: Detail::None,
        }
    }

    fn malformed(bytes: &[u8], fault: ReadFault, place: Place, why: Why) -> Refusal
        ensures fault { result.fault ≡ fault }
        ensures place { result.place ≡ Some place }
    {
        let hint = match valid(bytes, bytes.len()) {
            Some(text) => Hint::of(why, &Spot::new(text, place)),
            None => None,
        };
        Refusal {
            fault,
            place: Some(place),
            detail: hint.map_or(Detail::None, Detail::Hint),
        }
    }

    /// The refusal of a text that is well formed.
    fn of_nodes(
        alloc: Global,
        bytes: &[u8],
        limits: &Limits,
        fault: ReadFault,
    ) -> Result<Refusal, AllocError>
        ensures { IfOk result (λ refusal. refusal.fault ≡ fault) }
    {
        let Some(text) = valid(bytes, bytes.len()) else {
            return Ok(Refusal::unplaced(fault));
        };
        let Ok(events) = events(alloc, bytes, limits.bytes) else {
            return Ok(Refusal::unplaced(fault));
        };
        Refusal::of_events(alloc, text, &events, limits, fault)
    }

    fn of_events(
        alloc: Global,
        text: &str,
        events: &Events<'_>,
        limits: &Limits,
        fault: ReadFault,
    ) -> Result<Refusal, AllocError>
        ensures { IfOk result (λ refusal. refusal.fault ≡ fault) }
    {
        let (at, detail) = match fault {
            ReadFault::Documents { count } => {
                (
                    second_document(alloc, text, events)?,
                    Detail::Documents { count },
                )
            }
            ReadFault::KeyNotText => {
                let at = collection_as_key(alloc, text, events)?;
                (at, detail_of_key(text, at))
            }
            ReadFault::TooDeep => {
                let limit = limits.depth;
                (
                    too_deep(alloc, text, events, limit)?,
                    Detail::Depth { limit },
                )
            }
            ReadFault::KeyTwice => match repeated_key(alloc, text, events)? {
                Some(key) => {
                    let name = String::from_str(alloc, key.name)?;
                    let first = place_at(text, key.first);
                    (Some(key.second), Detail::Key { name, first })
                }
                None => (None, Detail::None),
            },
            _ => (None, Detail::None),
        };
        Ok(Refusal {
            fault,
            place: at.map(|at| place_at(text, at)),
            detail,
        })
    }
}

/// The first `len` bytes as a text, if they are one.
fn valid(bytes: &[u8], len: usize) -> Option<&str> {
    str::from_utf8(bytes.get(..len)?).ok()
}

/// A template, if the key at a byte, from 0, is in braces of one.
fn detail_of_key(text: &str, at: Option<usize>) -> Detail {
    let at = at.unwrap_or(text.len());
    if Spot::new(text, place_at(text, at)).is_in_template() {
        return Detail::Hint(Hint::Template);
    }
    Detail::None
}

/// How many bytes the tree of a text has in the one style; `None` if memory runs out, or there are more than those of
/// [`Limits::KEPT`].
fn style_length(alloc: Global, bytes: &[u8], limits: &Limits) -> Option<u64> {
    let wide = Limits {
        style: Limits::KEPT.style,
        ..*limits
    };
    let text = format_one(alloc, bytes, &wide).ok()?;
    Some(text.len() as u64)
}

/// A sentence without a stop, as `line 3, column 1: the key "port" is there twice; it is first at line 2, column 1`.
impl fmt::Display for Refusal {
    fn fmt<W: fmt::Write>(&self, f: &mut fmt::Formatter<W>) -> fmt::Result {
        if let (Some(Place { line, column }), false) = (self.place, self.is_malformed()) {
            write!(f, "line {line}, column {column}: ")?;
        }
        let fault = self.fault;
        match &self.detail {
            Detail::None => write!(f, "{fault}"),
            Detail::Bytes { found, limit } => write!(
                f,
                "{fault}: it has {found} bytes, and may have {limit}"
            ),
            Detail::Depth { limit } => write!(f, "{fault}: it may be {limit} deep"),
            Detail::Documents { count: 0 } => f.write_str("the text has no document"),
            Detail::Documents { count } => write!(f, "the second of {count} documents begins here"),
            Detail::Key {
                name,
                first: Place { line, column },
            } => {
                write!(
                    f,
                    "the key {name:?} is there twice; it is first at line {line}, column {column}"
                )
            }
            Detail::Hint(hint) => write!(f, "{fault}: {hint}"),
        }
    }
}

impl Refusal {
    /// Whether the fault itself is shown with its place.
    fn is_malformed(&self) -> bool {
        matches!(self.fault, ReadFault::Syntax { .. })
    }
}
