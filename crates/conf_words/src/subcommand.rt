// The subcommands of the program.
ghost use Rattle.std.specs.Prelude.{◌≡◌, map, string_bytes};
ghost use Rattle.std.specs.Str.{bytes_eq};
ghost use Rattle.conf_words.specs.Subcommands.{all, asked_in, name_of, named};

/// A subcommand of the program.
#[derive(Clone, Copy, Debug, PartialEq, Eq)]
pub enum Subcommand {
    /// Makes a folder with an empty store.
    Init,
    /// Reads a YAML text, and puts its tree under a name.
    Import,
    /// Sets the value at a JSON Pointer of a configuration.
    Set,
    /// Removes a configuration, or what is at a JSON Pointer of it.
    Delete,
    /// Puts a copy of a configuration under another name.
    Copy,
    /// Gives a configuration another name.
    Rename,
    /// Moves what is at a JSON Pointer of a configuration to another place of it.
    Move,
    /// Makes all edits that a YAML text lists, or none of them.
    Batch,
    /// Makes the store file as short as its state.
    Checkpoint,
    /// Performs the commands on standard input on the store in a folder.
    Run,
    /// Writes a configuration of the store in a folder in the one style.
    Export,
    /// Writes the names of the configurations of a store.
    Names,
    /// Writes the value at a JSON Pointer of a configuration.
    Get,
    /// Writes the keys of what is at a JSON Pointer of a configuration.
    Keys,
    /// Says by the status whether something is at a JSON Pointer of a configuration.
    Exists,
    /// Writes the commands that a store has accepted since its last checkpoint.
    Log,
    /// Writes the edits that make a later state of a store of an earlier one, or the text of a file of another.
    Diff,
    /// Reads a whole store, and writes whether it can be opened.
    Verify,
    /// Makes a new store of what a damaged one says before its first bad piece.
    Salvage,
    /// Makes a new store with the same base and records as another one.
    Backup,
    /// Writes the tree of a YAML text in the one style.
    Format,
    /// Writes where YAML texts depart from the one style.
    Check,
}

impl Subcommand {
    /// All of them, in the order of the help.
    pub(crate) const ALL: [Subcommand; 22] = [
        Subcommand::Init,
        Subcommand::Import,
        Subcommand::Set,
        Subcommand::Delete,
        Subcommand::Copy,
        Subcommand::Rename,
        Subcommand::Move,
        Subcommand::Batch,
        Subcommand::Checkpoint,
        Subcommand::Run,
        Subcommand::Export,
        Subcommand::Names,
        Subcommand::Get,
        Subcommand::Keys,
        Subcommand::Exists,
        Subcommand::Log,
        Subcommand::Diff,
        Subcommand::Verify,
        Subcommand::Salvage,
        Subcommand::Backup,
        Subcommand::Format,
        Subcommand::Check,
    ];

    /// The subcommand that the program's words ask for; `None` if there is none. The first word is the program's name,
    /// and the second one asks.
    pub fn asked_in(words: &[String]) -> Option<Subcommand>
        ensures { result ≡ asked_in (map string_bytes words.now) }
    {
        match words {
            [_, word, ..] => Subcommand::named(word),
            _ => None,
        }
    }

    /// The subcommand of this name; `None` if there is none.
    pub(crate) fn named(name: &str) -> Option<Subcommand>
        ensures { result ≡ named name.now }
    {
        for subcommand in Subcommand::ALL {
            if subcommand.is_named(name) {
                return Some(subcommand);
            }
        }
        None
    }

    /// Whether this word asks for it.
    fn is_named(self, name: &str) -> bool
        ensures { result ≡ bytes_eq (name_of self) name.now }
    {
        self.name() == name
    }

    /// The word that asks for it.
    pub(crate) fn name(self) -> &'static str
        ensures { result.now ≡ name_of self }
    {
        match self {
            Subcommand::Init => "init",
            Subcommand::Import => "import",
            Subcommand::Set => "set",
            Subcommand::Delete => "delete",
            Subcommand::Copy => "copy",
            Subcommand::Rename => "rename",
            Subcommand::Move => "move",
            Subcommand::Batch => "batch",
            Subcommand::Checkpoint => "checkpoint",
            Subcommand::Run => "run",
            Subcommand::Export => "export",
            Subcommand::Names => "names",
            Subcommand::Get => "get",
            Subcommand::Keys => "keys",
            Subcommand::Exists => "exists",
            Subcommand::Log => "log",
            Subcommand::Diff => "diff",
            Subcommand::Verify => "verify",
            Subcommand::Salvage => "salvage",
            Subcommand::Backup => "backup",
            Subcommand::Format => "format",
            Subcommand::Check => "check",
        }
    }
}
