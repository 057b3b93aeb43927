// At most 23 bytes of UTF-8, stored in the value itself.
ghost use Rattle.std.specs.Prelude.{◌≡◌, ◌≤◌, ◌<◌, take, length, [], IsUtf8, MatchOption};

use std::str;

/// The most bytes that a [`Short`] holds.
const ROOM: usize = 23;

/// A text of at most 23 bytes.
#[derive(Clone, Copy, Drop)]
pub(crate) struct Short {
    len: u8,
    bytes: [u8; ROOM],
    ghost fits: { len ≤ 23 },
    ghost utf8: { ∥ IsUtf8 (take len bytes) ∥₁ },
}

impl Short {
    ghost use Rattle.yaml_data.specs.TextBytes.{short_bytes};

    /// The empty text.
    #[inline]
    pub(crate) fn empty() -> Short
        ensures { short_bytes result ≡ [] }
    {
        Short {
            len: 0,
            bytes: [0; ROOM],
        }
    }

    /// A copy of a text; `None` if it has more than 23 bytes.
    #[inline]
    pub(crate) fn new(text: &str) -> Option<Short>
        ensures { MatchOption result (23 < length text.now)
            (λ short. short_bytes short ≡ text.now) }
    {
        let len = text.len();
        if len > ROOM {
            return None;
        }
        let mut bytes = [0; ROOM];
        bytes[..len].copy_from_slice(text.as_bytes());
        Some(Short {
            len: len as u8,
            bytes,
        })
    }

    /// The text as a `str`.
    #[inline]
    pub(crate) fn as_str(&self) -> &str
        ensures { result.now ≡ short_bytes self.now }
    {
        unsafe { str::from_utf8_unchecked(&self.bytes[..self.len as usize]) }
    }
}
