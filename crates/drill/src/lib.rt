// The resend drill: a game of two players, the gateway and the line.
#![tactic(auto)]

ghost use Rattle.std.specs.Prelude.{◌≡◌, Ok, Err};
ghost use Rattle.refusal.specs.declared.Refusal.TheVariants.{NoLimit};
ghost use Rattle.drill.specs.Meaning.{Limit, drill, answered as answered_of, given_up as given_up_of, lead as lead_of, most as most_of};
ghost use Rattle.drill.specs.Limited.{drill_limits};

use game::{Game, is_under};
use refusal::Refusal;

// The gateway's first move: it sends nothing.
const HOLD: u32 = 1;

// The line's second move: it loses nothing.
const CARRY: u32 = 2;

// The drill of a limit: the tries are states 0 to the limit, then come answered and given up.
#[derive(Drop)]
pub struct Drill {
    limit: u8,
    ghost in_range: { Limit limit },
}

impl Drill {
    // The drill of this limit, which is 1 to 253.
    pub fn new(limit: u8) -> Result<Drill, Refusal>
        ensures { elim result [ Ok d ↦ Limit limit × (d.limit ≡ limit) | Err e ↦ (Limit limit → ⊥) × (e ≡ NoLimit) ] }
    {
        match limit {
            1..=253 => Ok(Drill { limit }),
            _ => Err(Refusal::NoLimit),
        }
    }

    // The state after the tries in which the message is answered.
    fn answered(&self) -> u8
        ensures { result ≡ answered_of self.now.limit }
    {
        self.limit + 1
    }

    // The state after the tries in which it is given up.
    fn given_up(&self) -> u8
        ensures { result ≡ given_up_of self.now.limit }
    {
        self.limit + 2
    }

    // The highest vector of a state.
    fn most(&self, state: u8) -> u32
        ensures { result ≡ most_of self.now.limit state }
    {
        if state <= self.limit { 0x22 } else { 0x11 }
    }

    // Where a vector leads.
    fn lead(&self, state: u8, vector: u32) -> u8
        ensures { result ≡ lead_of self.now.limit state vector }
    {
        let gateway = vector % 16;
        let line = vector / 16 % 16;
        if state > self.limit || gateway == HOLD {
            state
        } else if line == CARRY {
            self.answered()
        } else if state < self.limit {
            state + 1
        } else {
            self.given_up()
        }
    }
}

impl Game for Drill {
    ghost meaning = { λ d. drill d.limit };

    ghost limits = { λ d. drill_limits d.limit d.in_range.1 };

    fn players(&self) -> u8 {
        2
    }

    fn states(&self) -> (u16, u8) {
        (self.limit as u16 + 3, 0)
    }

    fn moves(&self, player: u8, state: u8) -> u8 {
        match player {
            1 | 2 if state <= self.limit => 2,
            1 | 2 if state <= self.given_up() => 1,
            _ => 0,
        }
    }

    fn labels(&self, state: u8) -> u16 {
        if state == self.answered() {
            0x100
        } else if state == self.given_up() {
            0x001
        } else {
            0
        }
    }

    #[tactic(auto, using(crate::proofs::Vectors::most_is))]
    fn next(&self, state: u8, vector: u32) -> Option<u8> {
        // Not has_state: a final method of the trait gets no proof in an impl of the trait.
        if state > self.given_up() || !is_under(2, self.most(state), vector) {
            return None;
        }
        Some(self.lead(state, vector))
    }
}
