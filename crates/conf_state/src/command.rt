// Commands: what a user asks a store to change.
ghost use Rattle.std.specs.Prelude.{◌≡◌, List};
ghost use Rattle.conf_state.specs.Prelude.{chars};

use conf_about::About;
use yaml_config::Config;

/// A change of one configuration. Each tree in it is a [`Config`]; that it keeps the limits of one is said by the
/// clause `kept` of `record_text` of `conf_record`. Names and paths are checked when the edit is made.
#[derive(Debug, Drop)]
pub enum Edit {
    /// Puts a tree under a name: last if the name is new; otherwise it replaces the tree that is there.
    Import {
        name: String,
        tree: Config,
    },
    /// Sets a value in the configuration under a name, at a path (RFC 6901). At the empty path it replaces the whole
    /// configuration.
    Set {
        name: String,
        path: String,
        value: Config,
    },
    /// Removes what is at a path (RFC 6901) of the configuration under a name; at the empty path, the configuration
    /// itself.
    Delete {
        name: String,
        path: String,
    },
}

impl Edit {
    ghost use Rattle.conf_state.specs.Commands.{edit_of, name_of};

    /// The name of the configuration that the edit changes.
    pub fn name(&self) -> &str
        ensures { chars result.now ≡ name_of (edit_of self.now) }
    {
        match self {
            Edit::Import { name, .. } => name,
            Edit::Set { name, .. } => name,
            Edit::Delete { name, .. } => name,
        }
    }
}

/// What a store is asked to change: a single edit, or a batch of edits, and maybe by whom, when and why.
#[derive(Debug, Drop)]
pub enum Command {
    /// The edit [`Edit::Import`].
    Import {
        name: String,
        tree: Config,
    },
    /// The edit [`Edit::Set`].
    Set {
        name: String,
        path: String,
        value: Config,
    },
    /// The edit [`Edit::Delete`].
    Delete {
        name: String,
        path: String,
    },
    /// Makes all edits, one after the other, or none of them. There is at least one, or the batch is refused. It counts
    /// as one command.
    Batch {
        edits: Vec<Edit>,
    },
    /// The command with these edits, and an about: who makes it, when and why. The about changes no state.
    Noted {
        edits: Edits,
        about: About,
    },
}

/// The edits of a command: a single one, or those of a batch.
#[derive(Debug, Drop)]
pub enum Edits {
    Single(Edit),
    Batch(Vec<Edit>),
}

impl Command {
    ghost use Rattle.conf_state.specs.Commands.{command_of, command_with, has_about, may_be_long};
    ghost use Rattle.conf_state.specs.States.{Entry};
    ghost use Rattle.conf_state.specs.Steps.{performed};

    /// Whether the command's record may be longer than [`RECORD_LIMIT`](crate::RECORD_LIMIT): it is a batch, also of
    /// one edit or of none, or has an about.
    pub fn may_be_long(&self) -> bool
        ensures { result ≡ may_be_long (command_of self.now) }
    {
        matches!(self, Command::Batch { .. } | Command::Noted { .. })
    }

    /// Whether the command has an about.
    pub fn has_about(&self) -> bool
        ensures { result ≡ has_about (command_of self.now) }
    {
        matches!(self, Command::Noted { .. })
    }

    /// The command's edits. They make of all configurations what the command makes of them.
    pub(crate) fn into_edits(self) -> Edits
        ensures { (configs : List Entry)
            → performed configs (command_of self) ≡ performed configs (command_with result) }
    {
        match self {
            Command::Import { name, tree } => Edits::Single(Edit::Import { name, tree }),
            Command::Set { name, path, value } => Edits::Single(Edit::Set { name, path, value }),
            Command::Delete { name, path } => Edits::Single(Edit::Delete { name, path }),
            Command::Batch { edits } => Edits::Batch(edits),
            Command::Noted { edits, .. } => edits,
        }
    }
}

impl From<Edit> for Command {
    ghost use Rattle.conf_state.specs.Commands.{edit_of, command_of, single};

    ghost from_gives = { λ edit command. command_of command ≡ single (edit_of edit) };

    /// The command that is this edit alone.
    fn from(edit: Edit) -> Command {
        match edit {
            Edit::Import { name, tree } => Command::Import { name, tree },
            Edit::Set { name, path, value } => Command::Set { name, path, value },
            Edit::Delete { name, path } => Command::Delete { name, path },
        }
    }
}

impl From<Edits> for Command {
    ghost use Rattle.conf_state.specs.Commands.{command_of, command_with};

    ghost from_gives = { λ edits command. command_of command ≡ command_with edits };

    /// The command that has these edits, and no about.
    fn from(edits: Edits) -> Command {
        match edits {
            Edits::Single(edit) => Command::from(edit),
            Edits::Batch(edits) => Command::Batch { edits },
        }
    }
}
