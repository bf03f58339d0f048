// The judged examples: what the board answers for the rules of two small games.
#![tactic(auto)]

mod examples;
mod rows;

pub use examples::{Example, judged, meeting_book};
