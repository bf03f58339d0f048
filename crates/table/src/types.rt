// What a board holds.
ghost use Rattle.std.specs.Prelude.{◌≤◌};

use atl::{Kind, Mark};

// How far a rule is, with the rounds that it has had.
#[derive(Clone, Copy)]
pub enum Condition {
    Fresh,
    Working(u16),
    Settled(u16),
}

// Of a rule: what write took, its marks with their numbers, its rounds and whether it is settled. The marks are an array,
// since no call of a board allocates.
#[derive(Clone, Copy)]
pub struct Rule {
    pub(crate) kind: Kind,
    pub(crate) group: u8,
    pub(crate) r: u8,
    pub(crate) s: u8,
    pub(crate) marks: [Mark; 256],
    pub(crate) condition: Condition,
}

// The rules that stand are the first `count`, rule n at place n: an array for the same reason.
#[derive(Clone, Copy)]
pub struct Table {
    pub(crate) rules: [Rule; 32],
    pub(crate) count: u8,
    ghost ok: { count ≤ 32 },
}

// The yes states of a rule's parts: a flag for each state that a byte names, in an array like a rule's marks, for the same reason.
#[derive(Clone, Copy)]
pub struct Parts {
    pub(crate) r: [bool; 256],
    pub(crate) s: [bool; 256],
}

// What a round works with: the yes states of the rule's parts, and the states that it aims at.
#[derive(Clone, Copy)]
pub struct Sets {
    pub(crate) parts: Parts,
    pub(crate) aim: [bool; 256],
}
