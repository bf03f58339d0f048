// A game laid out once: its counts of moves, its labels, and where each vector of each state leads.
use game::Game;
use std::alloc::{AllocError, Global};
use std::iter::Take;
use std::ops::RangeInclusive;

// Player i + 1 has so many moves at place i, 0 for a player that there is not.
pub type Counts = [u8; 6];

// The first states, so many of them, and at most 256.
pub fn first_states(many: u16) -> Take<RangeInclusive<u8>> {
    (0..=u8::MAX).take(many as usize)
}

// What there is at a state.
#[derive(Clone, Copy)]
pub struct Site {
    pub counts: Counts,
    pub labels: u16,
}

// The vector leads from the state to the next.
#[derive(Clone, Copy)]
pub struct Step {
    pub state: u8,
    pub vector: u32,
    pub next: u8,
}

#[derive(Drop)]
pub struct Layout {
    pub players: u8,
    // How many the game tells. Kept beside the sites, since a step is laid before the sites of later states.
    pub states: u16,
    // By state.
    pub sites: Vec<Site>,
    pub steps: Vec<Step>,
    // How many vectors lead to no state of the game.
    pub astray: u32,
}

// The product of the counts of the first players.
pub fn product(players: u8, counts: Counts) -> u32 {
    counts
        .iter()
        .take(players as usize)
        .fold(1u32, |product, count| {
            product.saturating_mul(u32::from(*count))
        })
}

// The vector at the place among those of a state, ascending: player 1's move counts fastest. A loop and no fold: three numbers go on from count to count.
pub fn vector_at(players: u8, counts: Counts, place: u32) -> u32 {
    let mut vector: u32 = 0;
    let mut weight: u32 = 1;
    let mut rest = place;
    for count in counts.iter().take(players as usize) {
        let moves = u32::from(*count).max(1);
        vector = vector.wrapping_add((rest % moves).wrapping_add(1).wrapping_mul(weight));
        weight = weight.wrapping_mul(16);
        rest /= moves;
    }
    vector
}

impl Site {
    fn of<G: Game>(game: &G, state: u8) -> Site {
        Site {
            counts: [1u8, 2, 3, 4, 5, 6].map(|player| game.moves(player, state)),
            labels: game.labels(state),
        }
    }
}

impl Layout {
    pub fn of<G: Game>(heap: Global, game: &G) -> Result<Layout, AllocError> {
        let (states, _) = game.states();
        let mut layout = Layout {
            players: game.players(),
            states,
            sites: Vec::new(heap),
            steps: Vec::new(heap),
            astray: 0,
        };
        for state in first_states(states) {
            layout.lay(game, state)?;
        }
        Ok(layout)
    }

    fn lay<G: Game>(&mut self, game: &G, state: u8) -> Result<(), AllocError> {
        let site = Site::of(game, state);
        self.sites.push(site)?;
        for place in 0..product(self.players, site.counts) {
            let vector = vector_at(self.players, site.counts, place);
            self.step(state, vector, game.next(state, vector))?;
        }
        Ok(())
    }

    fn step(&mut self, state: u8, vector: u32, next: Option<u8>) -> Result<(), AllocError> {
        match next {
            Some(next) if u16::from(next) < self.states => {
                self.steps.push(Step {
                    state,
                    vector,
                    next,
                })?;
            }
            _ => self.astray = self.astray.saturating_add(1),
        }
        Ok(())
    }

    pub fn counts(&self, state: u8) -> Counts {
        self.sites
            .get(state as usize)
            .map_or([1; 6], |site| site.counts)
    }

    pub fn has_label(&self, state: u8, label: u8) -> bool {
        self.sites
            .get(state as usize)
            .and_then(|site| site.labels.checked_shr(u32::from(label)))
            .is_some_and(|rest| rest % 2 == 1)
    }

    // Where the vector leads from the state.
    pub fn next(&self, state: u8, vector: u32) -> Option<u8> {
        self.steps
            .iter()
            .find(|step| step.state == state && step.vector == vector)
            .map(|step| step.next)
    }
}
