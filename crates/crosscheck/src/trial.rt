// What is handed on from one comparison to the next.
use crate::luck::Luck;
use crate::tally::Tally;

// The luck that a game is tried by, and what is counted. The name of the game stays a parameter: a binding over the game is tried by
// the same luck under another name.
#[derive(Drop)]
pub struct Trial<'a> {
    pub tally: &'a mut Tally,
    pub luck: Luck,
}
