// Books made by luck, and their bytes.
use crate::layout::{Counts, first_states, product};
use crate::luck::Luck;
use crate::words::Rule;
use std::alloc::{AllocError, Global};

// What a book is to be like.
#[derive(Clone, Copy)]
pub struct Plan {
    pub players: u8,
    pub states: u16,
    // The most vectors of a state.
    pub most: u32,
    // Whether states lead to their neighbours.
    pub near: bool,
}

// A state's labels, counts, and where its vectors lead, ascending.
#[derive(Drop)]
pub struct Page {
    pub labels: u16,
    pub counts: Counts,
    pub nexts: Vec<u8>,
}

#[derive(Drop)]
pub struct Content {
    pub players: u8,
    pub states: u16,
    pub start: u8,
    pub pages: Vec<Page>,
    pub rules: Vec<Rule>,
}

// Which games a plan may be of.
#[derive(Clone, Copy)]
pub enum Size {
    // Of the usual size, or now and then a large one.
    Any,
    // Of at most six states and three players.
    Small,
}

impl Plan {
    pub fn of(luck: &mut Luck, size: Size) -> Plan {
        let plan = Plan::any(luck);
        match size {
            Size::Any => plan,
            Size::Small => Plan {
                players: plan.players.min(3),
                states: plan.states.min(6),
                most: 12,
                near: plan.near,
            },
        }
    }

    fn any(luck: &mut Luck) -> Plan {
        let large = luck.often(2);
        Plan {
            players: luck.byte(6).saturating_add(1),
            states: if large {
                256
            } else {
                u16::from(luck.byte(24)) + 1
            },
            most: if large { 8 } else { 48 },
            near: luck.often(16),
        }
    }
}

// One label in four is as likely as not, one rare, one frequent and one very rare.
fn any_labels(luck: &mut Luck) -> u16 {
    let mut labels: u16 = 0;
    for often in [16u32, 4, 28, 1].iter().cycle().take(16) {
        labels = labels << 1 | u16::from(luck.often(*often));
    }
    labels
}

fn any_counts(luck: &mut Luck, plan: Plan) -> Counts {
    let mut counts = [0u8; 6];
    let mut vectors: u32 = 1;
    for count in counts.iter_mut().take(plan.players as usize) {
        let range = if luck.often(3) { 15 } else { 3 };
        let moves = luck.byte(range).saturating_add(1).min(15);
        let fits = vectors.saturating_mul(u32::from(moves)) <= plan.most;
        *count = if fits { moves } else { 1 };
        vectors = vectors.saturating_mul(u32::from(*count));
    }
    counts
}

fn any_next(luck: &mut Luck, plan: Plan, state: u8) -> u8 {
    let states = u32::from(plan.states);
    let next = if plan.near {
        u32::from(state)
            .saturating_add(luck.below(5))
            .saturating_add(states)
            .saturating_sub(2)
    } else {
        luck.below(states)
    };
    u8::try_from(next.checked_rem(states).unwrap_or(0)).unwrap_or(0)
}

impl Page {
    fn any(heap: Global, luck: &mut Luck, plan: Plan, state: u8) -> Result<Page, AllocError> {
        let counts = any_counts(luck, plan);
        let nexts = (0..product(plan.players, counts)).map(|_| any_next(luck, plan, state));
        let nexts = nexts.collect(heap)?;
        Ok(Page {
            labels: any_labels(luck),
            counts,
            nexts,
        })
    }

    // Six players who have these counts of moves. Player 1's move 2 leads to state 1, whatever the others play.
    pub fn crowded(heap: Global, luck: &mut Luck, counts: Counts) -> Result<Page, AllocError> {
        let first = u32::from(counts[0]);
        let nexts = (0..product(6, counts)).map(|place| match place.checked_rem(first) {
            Some(1) => 1,
            _ => luck.byte(3),
        });
        let nexts = nexts.collect(heap)?;
        Ok(Page {
            labels: any_labels(luck),
            counts,
            nexts,
        })
    }
}

fn field(bytes: &mut Vec<u8>, tag: u8, value: &[u8]) -> Result<(), AllocError> {
    bytes.push(tag)?;
    let size = u16::try_from(value.len()).unwrap_or(u16::MAX);
    bytes.extend_from_slice(&size.to_be_bytes())?;
    bytes.extend_from_slice(value)
}

impl Content {
    pub fn any(heap: Global, luck: &mut Luck, plan: Plan) -> Result<Content, AllocError> {
        let pages = first_states(plan.states).map(|state| Page::any(heap, luck, plan, state));
        let pages = pages.try_collect(heap)?;
        Ok(Content {
            players: plan.players,
            states: plan.states,
            start: luck.byte(u32::from(plan.states)),
            pages,
            rules: Vec::new(heap),
        })
    }

    // Three states and six players who have four moves each, at state 0 with so many for the first of them.
    pub fn crowded(heap: Global, luck: &mut Luck, first: u8) -> Result<Content, AllocError> {
        let pages = [first, 4, 4].into_iter();
        let pages = pages.map(|first| Page::crowded(heap, luck, [first, 4, 4, 4, 4, 4]));
        let pages = pages.try_collect(heap)?;
        Ok(Content {
            players: 6,
            states: 3,
            start: 1,
            pages,
            rules: Vec::new(heap),
        })
    }

    // The book's bytes: the heading, the states, the rules.
    pub fn bytes(&self, heap: Global) -> Result<Vec<u8>, AllocError> {
        let mut bytes = Vec::new(heap);
        let last = u8::try_from(self.states.saturating_sub(1)).unwrap_or(u8::MAX);
        field(&mut bytes, 1, &[self.players, last, self.start])?;
        for page in self.pages.iter() {
            let mut value = Vec::new(heap);
            value.extend_from_slice(&page.labels.to_be_bytes())?;
            value.extend(page.counts.iter().take(self.players as usize))?;
            value.extend_from_slice(&page.nexts)?;
            field(&mut bytes, 2, &value)?;
        }
        for rule in self.rules.iter() {
            field(&mut bytes, 3, &<[u8; 4]>::from(*rule))?;
        }
        Ok(bytes)
    }
}
