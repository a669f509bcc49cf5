//! The program's one call, from its words to its status.
#![tactic(auto)]

mod capping;
mod certificate_text;
mod command;
mod draft;
mod effects;
mod making;
mod program;
mod structure;
mod unfound;

pub use branch_search::{Sight, Standing, Watcher};
pub use certificate_answers::Status;
pub use program::{run, run_watched};
