// What the program's words ask it to do.
use conf_about::About;

/// The word for standard input, where the name of a file or a YAML text is wanted.
pub const STANDARD_INPUT: &str = "-";

/// What a run of the program is asked to do. The words that it holds are as they were given: no folder, name or pointer
/// was looked at. An about says who makes a change, when and why; there is none if the words say nothing of it.
#[derive(Debug, Drop)]
pub enum Invocation<'w> {
    /// Makes the folder, if it is missing, and an empty store in it.
    Init {
        folder: &'w str,
    },
    /// Reads a YAML text, and puts its tree under a name.
    Import {
        import: Import<'w>,
        about: Option<About>,
        reporting: Reporting,
    },
    /// Sets a value at a place. The pointer of the place is empty only if the words say that the whole configuration is
    /// meant.
    Set {
        target: Target<'w>,
        put: Put<'w>,
        about: Option<About>,
        reporting: Reporting,
    },
    /// Changes what is at a place, and takes no value for it.
    Alter {
        target: Target<'w>,
        alteration: Alteration<'w>,
        about: Option<About>,
    },
    /// Reads a YAML text, a list of edits, and makes all of them or none.
    Batch {
        batch: Batch<'w>,
        about: Option<About>,
        reporting: Reporting,
    },
    /// Makes the store file as short as its state.
    Checkpoint {
        folder: &'w str,
    },
    /// Performs the commands on standard input.
    Run {
        folder: &'w str,
        grouping: Grouping,
    },
    /// Writes a configuration.
    Export {
        folder: &'w str,
        name: &'w str,
        form: TreeForm,
    },
    /// Writes each configuration into a file of its own in the folder `into`.
    ExportAll {
        folder: &'w str,
        into: &'w str,
        form: TreeForm,
    },
    /// Writes the names of the configurations, of the store as it was after command `at`, or as it is.
    Names {
        folder: &'w str,
        at: Option<u64>,
        form: NamesForm,
    },
    /// Writes the values at places of a configuration, one after the other, or the keys of one. There are several
    /// places only for texts as they are, each on a line, or for JSON texts.
    Get {
        folder: &'w str,
        places: Places<'w>,
        missing: MissingValue<'w>,
        form: ValueForm,
    },
    /// Tells by the status whether something is at a place. The pointer of the place is empty if the words leave it
    /// out: then the configuration is looked for.
    Exists {
        folder: &'w str,
        place: Place<'w>,
    },
    /// Writes commands that the store has accepted since its last checkpoint.
    Log {
        folder: &'w str,
        commands: Commands<'w>,
        form: LogForm<'w>,
    },
    /// Writes the edits that make the second of two states of the store of the first one, or only those of the
    /// configuration of this name.
    Diff {
        folder: &'w str,
        name: Option<&'w str>,
        span: Span,
    },
    /// Writes the edits that make the tree of the second file of that of the first one.
    DiffFiles {
        first: &'w str,
        second: &'w str,
    },
    /// Reads the whole store, and writes whether it can be opened. What an opening drops of it, or is refused for, is
    /// kept in the new file `keep_dropped`, if the words name one.
    Verify {
        folder: &'w str,
        keep_dropped: Option<&'w str>,
    },
    /// Makes a store in the folder `new` of what the damaged one in `folder` says before its first bad piece. The rest
    /// is kept in the new file `keep_dropped`, if the words name one.
    Salvage {
        folder: &'w str,
        new: &'w str,
        keep_dropped: Option<&'w str>,
    },
    /// Makes a store in the folder `new` with the same base and records as the one in `folder`.
    Backup {
        folder: &'w str,
        new: &'w str,
    },
    /// Writes the texts of the files in a style, or that of standard input if there are none.
    Format {
        formatting: Formatting,
        files: Vec<&'w str>,
        reporting: Reporting,
    },
    /// Writes where the texts of the files depart from a style, or that of standard input if there are none.
    Check {
        style: Style,
        files: Vec<&'w str>,
        reporting: Reporting,
    },
}

/// A place of the store in a folder that a word changes, and what has to hold for it to do so.
#[derive(Clone, Copy, Debug, PartialEq, Eq)]
pub struct Target<'w> {
    /// The folder of the store.
    pub folder: &'w str,
    /// The name of the configuration that is changed.
    pub name: &'w str,
    /// The JSON Pointer of the place in it; the empty one stands for the whole configuration.
    pub pointer: &'w str,
    /// What has to hold of the store, before its change.
    pub conditions: Conditions<'w>,
}

/// A value that a word sets at a place, and how.
#[derive(Clone, Copy, Debug, PartialEq, Eq)]
pub struct Put<'w> {
    /// The value.
    pub value: Value<'w>,
    /// How it is put at the place.
    pub placing: Placing,
}

/// How a word changes what is at a place, where it takes no value for it.
#[derive(Clone, Copy, Debug, PartialEq, Eq)]
pub enum Alteration<'w> {
    /// It is removed. The pointer of the place is empty if the words leave it out, or say that the whole configuration
    /// is meant: then the configuration is removed.
    Delete,
    /// A copy of the configuration under another name is put there, in place of one that is there. The pointer of the
    /// place is empty. Unless the words say otherwise, a condition wants none there.
    Copy {
        /// That other name.
        from: &'w str,
    },
    /// The configuration under another name gets the name of the place, in place of one that is there. The pointer of
    /// the place is empty.
    Rename {
        /// That other name.
        from: &'w str,
    },
    /// What is at another JSON Pointer of the configuration is moved there, in place of what is there. Neither pointer
    /// is empty.
    Move {
        /// That other pointer.
        from: &'w str,
    },
}

/// Which text is imported, and where.
#[derive(Clone, Copy, Debug, PartialEq, Eq)]
pub struct Import<'w> {
    /// The folder of the store.
    pub folder: &'w str,
    /// The name under which the tree of the text is put.
    pub name: &'w str,
    /// The file of the text; [`STANDARD_INPUT`] if the words leave it out.
    pub file: &'w str,
    /// What the text may be.
    pub root: Root,
    /// What is done where the folder has no store.
    pub missing: MissingStore,
    /// What has to hold of the store, before its change.
    pub conditions: Conditions<'w>,
}

/// Which edits are made as one command, and of which store.
#[derive(Clone, Copy, Debug, PartialEq, Eq)]
pub struct Batch<'w> {
    /// The folder of the store.
    pub folder: &'w str,
    /// The file of the text that lists the edits; [`STANDARD_INPUT`] if the words leave it out.
    pub file: &'w str,
    /// How many commands the store has to have accepted; any number if there is none.
    pub count: Option<u64>,
}

/// A place of a store that a word reads.
#[derive(Clone, Copy, Debug, PartialEq, Eq)]
pub struct Place<'w> {
    /// The name of the configuration.
    pub name: &'w str,
    /// The JSON Pointer of the place in it; the empty one stands for the whole configuration.
    pub pointer: &'w str,
    /// The store is read as it was after this command, or as it is if there is none.
    pub at: Option<u64>,
}

/// The places of one configuration that a word reads.
#[derive(Debug, Drop)]
pub struct Places<'w> {
    /// The name of the configuration.
    pub name: &'w str,
    /// The JSON Pointers of the places in it. There is at least one: the empty one if the words give none, which means
    /// the whole configuration.
    pub pointers: Vec<&'w str>,
    /// The store is read as it was after this command, or as it is if there is none.
    pub at: Option<u64>,
}

/// Which commands of a store a word reads.
#[derive(Clone, Copy, Debug, PartialEq, Eq)]
pub struct Commands<'w> {
    /// Only those that change the configuration of this name; all if there is none.
    pub name: Option<&'w str>,
    /// The number of the first command.
    pub from: u64,
    /// The number of the last command, if the words give one; else they end with the last of the store.
    pub at: Option<u64>,
}

/// The two states of a store that a word compares. Either may be the older one.
#[derive(Clone, Copy, Debug, PartialEq, Eq)]
pub struct Span {
    /// The first is that after the command of this number; if there is none, the oldest that the store file has.
    pub from: Option<u64>,
    /// The second is that after the command of this number; if there is none, that after the last.
    pub to: Option<u64>,
}

/// A value that the words give.
#[derive(Clone, Copy, Debug, PartialEq, Eq)]
pub enum Value<'w> {
    /// This text itself.
    Text(&'w str),
    /// What this YAML text gives, or the one on standard input for [`STANDARD_INPUT`].
    Yaml(&'w str),
    /// The bytes of this file as a text, or those of standard input for [`STANDARD_INPUT`].
    File(&'w str),
}

/// How `set` puts its value at its place.
#[derive(Clone, Copy, Debug, PartialEq, Eq)]
pub enum Placing {
    /// In place of what is there, or as a new member of what is there on the way.
    AtPlace,
    /// The same; the mappings that are missing on the way are made.
    WithParents,
    /// Before the element at an index of a list.
    BeforeElement,
}

/// What has to hold of a store, before its change, for a word to change it.
#[derive(Clone, Copy, Debug, PartialEq, Eq)]
pub struct Conditions<'w> {
    /// What has to be at the place that the word changes: at the pointer, or under the name that gets a configuration.
    pub place: Wanted<'w>,
    /// How many commands the store has to have accepted; any number if there is none.
    pub count: Option<u64>,
}

/// What has to be at a place.
#[derive(Clone, Copy, Debug, PartialEq, Eq)]
pub enum Wanted<'w> {
    /// Anything, or nothing.
    Anything,
    /// Nothing.
    Nothing,
    /// This text.
    Text(&'w str),
}

/// Which commands of a session share a sync.
#[derive(Clone, Copy, Debug, PartialEq, Eq)]
pub enum Grouping {
    /// None do: each has its own.
    Single,
    /// All that one read brings do. A checkpoint is made each time that the store file has grown by so many bytes, at
    /// least 1, or only where a command asks for it.
    Grouped { checkpoint_after: Option<u64> },
}

/// What `get` does where nothing is at the place.
#[derive(Clone, Copy, Debug, PartialEq, Eq)]
pub enum MissingValue<'w> {
    /// It is refused.
    Refused,
    /// This text is written, as if it were there.
    Default(&'w str),
}

/// How a value is written whole.
#[derive(Clone, Copy, Debug, PartialEq, Eq)]
pub enum TreeForm {
    /// In the one style.
    Styled,
    /// As a JSON text (RFC 8259) on one line.
    Json,
    /// In the one style, but a text that YAML's core schema (YAML 1.2.2, 10.3.2) takes for null, a truth value or a
    /// number stands plain.
    Plain,
}

/// What `get` and `keys` write of a value.
#[derive(Clone, Copy, Debug, PartialEq, Eq)]
pub enum ValueForm {
    /// All of it.
    Whole(TreeForm),
    /// A text as it is, and then its end. Any other value is refused.
    Raw(RawEnd),
    /// The keys of a mapping, or the indexes of a sequence. A text is refused.
    Keys,
}

/// How names are written.
#[derive(Clone, Copy, Debug, PartialEq, Eq)]
pub enum NamesForm {
    /// A line each.
    Lines,
    /// As a JSON array on one line.
    Json,
}

/// What follows a text that is written as it is.
#[derive(Clone, Copy, Debug, PartialEq, Eq)]
pub enum RawEnd {
    LineFeed,
    Nothing,
}

/// How `log` writes a command. A line has what the command's about says under the keys `shown`; they are `by`, `when`
/// and `why` if the words name none.
#[derive(Debug, Drop)]
pub enum LogForm<'w> {
    /// In a line.
    Lines {
        shown: Vec<&'w str>,
    },
    /// In a line, with the value of each import and each set as a JSON text (RFC 8259). What is at one of these JSON
    /// Pointers of a configuration, or below it, is hidden.
    Values {
        shown: Vec<&'w str>,
        hidden: Vec<&'w str>,
    },
    /// As a JSON object (RFC 8259) on a line, with its values and its whole about.
    Json,
    /// As its record stands in the store file.
    Records,
}

/// What `format` does with its files.
#[derive(Clone, Copy, Debug, PartialEq, Eq)]
pub enum Formatting {
    /// It writes the text of one to standard output. There is at most one.
    Write { style: Style },
    /// It replaces each that would change. There is at least one, and none is [`STANDARD_INPUT`].
    InPlace { comments: Comments },
    /// It names each that would change.
    Check { style: Style },
}

/// What a text is formatted to, and compared with.
#[derive(Clone, Copy, Debug, PartialEq, Eq)]
pub enum Style {
    /// Its tree in the one style, which has no comments.
    Bare,
    /// The same with the comments of the text.
    WithComments,
}

/// What an imported text may be.
#[derive(Clone, Copy, Debug, PartialEq, Eq)]
pub enum Root {
    /// A mapping or a list. One value alone is refused.
    Collection,
    /// Any value.
    Any,
}

/// What is done where the folder has no store.
#[derive(Clone, Copy, Debug, PartialEq, Eq)]
pub enum MissingStore {
    /// It stays so, and the word is refused.
    Refused,
    /// An empty store is made first.
    Made,
}

/// What is done with a file that has comments.
#[derive(Clone, Copy, Debug, PartialEq, Eq)]
pub enum Comments {
    /// The file is refused, and stays as it is.
    Refused,
    /// The file is replaced, and its comments are lost.
    Dropped,
    /// The file is replaced, and its comments are kept.
    Kept,
}

/// How much is said of a text that is refused.
#[derive(Clone, Copy, Debug, PartialEq, Eq)]
pub enum Reporting {
    /// One line: the place and the reason.
    Brief,
    /// That line, the line of the text with a mark under the place, and what to do.
    Explained,
}
