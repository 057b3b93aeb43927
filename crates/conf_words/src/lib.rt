//! The words that the program `confstore` takes. [`parse`] reads them to an [`Invocation`], or says what their help is
//! or why they are wrong; [`parse_with_wait`] says how long locks are waited for, too; [`escaped`] shows texts from
//! outside.
#![tactic(auto)]

mod abouts;
mod arguments;
mod change_words;
mod conditions;
mod escapes;
mod folder_word;
mod invocation;
mod laws;
mod listing;
mod read_words;
mod refusal;
mod subcommand;
mod text_words;
mod unparsed;
mod waiting;
mod words;

pub use escapes::escaped;
pub use folder_word::FolderWord;
pub use invocation::{
    Alteration, Batch, Commands, Comments, Conditions, Formatting, Grouping, Import, Invocation,
    LogForm, MissingStore, MissingValue, NamesForm, Place, Places, Placing, Put, RawEnd, Reporting,
    Root, STANDARD_INPUT, Span, Style, Target, TreeForm, Value, ValueForm, Wanted,
};
pub use laws::{files_always_fit, no_two_texts_are_shown_alike};
pub use subcommand::Subcommand;
pub use unparsed::Unparsed;
pub use waiting::WAIT_VARIABLE;
pub use words::{Asked, parse, parse_with_wait};
