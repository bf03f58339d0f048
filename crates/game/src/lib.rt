// Games: what every game answers, what it means, and the two sides of a state.
#![tactic(auto)]

mod interface;
mod sides;

pub use interface::Game;
pub use sides::{Sides, is_choice, is_member, is_under, is_vector};
