// Any list of calls on a board.
#![tactic(auto)]

mod list;
mod types;

pub use list::{call, perform};
pub use types::{Answer, Call};
