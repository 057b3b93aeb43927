//! The state of a store: configurations by name, and what each command makes of them.
//!
//! [`step`] performs a [`Command`] on a [`State`], or returns a [`StoreFault`], which says why it is refused.
//! [`replay`] does so for a state that is dropped then. A command is a single [`Edit`] or a batch of them, with or
//! without an about ([`About`](conf_about::About)), which changes no state ([`about_changes_no_state`]). A [`Room`]
//! says whether the journal has room for the command's record. [`good_name`] says which texts name a configuration.
//! The texts of states and commands are those of `conf_record`.
//!
//! A [`Part`] goes through the same commands, and builds only the configurations that they change or that are asked
//! for: the others are left as its [`Origin`] keeps them.
#![tactic(auto)]

mod base;
mod command;
mod configs;
mod counting;
mod draft;
mod draft_length;
mod draft_names;
mod drafting;
mod editing;
mod entries;
mod fault;
mod in_place;
mod laws;
mod name;
mod origin;
mod part;
mod planning;
mod replaying;
mod room;
mod sets;
mod state;
mod steps;

pub use base::value_length;
pub use command::{Command, Edit, Edits};
pub use fault::StoreFault;
pub use laws::{
    about_changes_no_state, accepted_commands_are_counted, runs_are_joined,
    steps_are_counted_or_refused,
};
pub use name::good_name;
pub use origin::Origin;
pub use part::Part;
pub use replaying::replay;
pub use room::{RECORD_LIMIT, Room};
pub use state::{Names, State};
pub use steps::step;
