//! What runs of the program keep of the store in a folder, one run after the other, and of the files that they replace.
//!
//! [`runs_hold`] is a law of [`perform`](conf_tools::perform) by its contract: it speaks of lists of runs, with any
//! words, that return or are cut off.
#![tactic(auto)]

mod laws;

pub use laws::{
    Files, Folders, calls_keep_files, first_example_holds, reads_see_writes, restyled_files_hold,
    runs_hold,
};
