// The formats of the bases that a store writes.
ghost use Rattle.std.specs.Prelude.{◌≡◌};
ghost use Rattle.conf_record.specs.Prelude.{chars};
ghost use Rattle.conf_record.specs.Formats.{format_line, format_of};

/// The format of a base that a store writes.
#[derive(Clone, Copy, Debug, PartialEq, Eq)]
pub enum Format {
    /// `confstore-2`. No record behind it has an about.
    Second,
    /// `confstore-3`. A record behind it may have an about.
    Third,
}

/// The bytes with which a base of the third format begins.
const THIRD_START: &[u8] = b"---\nstore: confstore-3\n";

impl Format {
    /// The format of a store's file of these bytes. A base that is not spelled in the one style counts as one of the
    /// second format.
    pub fn of(bytes: &[u8]) -> Format
        ensures { result ≡ format_of bytes.now }
    {
        if bytes.starts_with(THIRD_START) {
            Format::Third
        } else {
            Format::Second
        }
    }

    /// The first member of a base, which names its format.
    pub(crate) fn line(self) -> &'static str
        ensures { chars result.now ≡ format_line self }
    {
        match self {
            Format::Second => "store: confstore-2\n",
            Format::Third => "store: confstore-3\n",
        }
    }
}
