// Judging a game by rules, and what is printed of it.
#![tactic(auto)]

mod judging;
mod reading;
mod report;
mod script;
mod session;
mod types;

pub use report::{list, playbook};
pub use session::{list_book, list_drill, playbook_of_book};
pub use types::Report;
