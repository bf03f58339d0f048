// The two sides of each state for a group: what it chooses, and where the replies lead.
use crate::layout::{Counts, Layout, Step, product};
use std::alloc::{AllocError, Global};
use std::array;

// Which places have a member.
pub fn members(group: u8) -> [bool; 6] {
    let bits = [1u8, 2, 4, 8, 16, 32];
    array::from_fn(|place| group & bits[place] != 0)
}

// Fifteen in the place of each member, four bits a player.
pub fn mask(group: u8) -> u32 {
    members(group).iter().rev().fold(0u32, |mask, member| {
        mask << 4 | if *member { 15 } else { 0 }
    })
}

// Each member plays 1.
pub fn ones(group: u8) -> u32 {
    mask(group) & 0x111111
}

// The counts with 1 in place of each non-member's.
fn own(group: u8, counts: Counts) -> Counts {
    let members = members(group);
    array::from_fn(|place| if members[place] { counts[place] } else { 1 })
}

// The place of a vector's moves among those that these counts allow; a count of 1 makes no difference. A loop and no fold: three numbers go on from count to count.
fn place_of(counts: Counts, vector: u32) -> u32 {
    let mut place: u32 = 0;
    let mut weight: u32 = 1;
    let mut rest = vector;
    for count in counts.iter() {
        if *count > 1 {
            let before = (rest % 16).saturating_sub(1);
            place = place.wrapping_add(before.wrapping_mul(weight));
            weight = weight.wrapping_mul(u32::from(*count));
        }
        rest /= 16;
    }
    place
}

// A choice of the group at the state, and how many replies there are to it.
#[derive(Clone, Copy)]
pub struct Choice {
    pub state: u8,
    pub number: u32,
    pub replies: u32,
}

// Some reply to the choice leads here. The graph has cycles, so its parts are named by number.
#[derive(Clone, Copy)]
pub struct Arc {
    pub state: u8,
    // Its place among the choices of all states.
    pub choice: usize,
}

// A state of the graph.
#[derive(Drop)]
pub struct Node {
    // How many choices come before its own.
    before: usize,
    // How many choices it has.
    pub many: u32,
    // What leads here, once for each reply.
    pub into: Vec<Arc>,
}

#[derive(Drop)]
pub struct Division {
    group: u8,
    // By state, and then ascending.
    pub choices: Vec<Choice>,
    // By state.
    pub nodes: Vec<Node>,
}

impl Division {
    pub fn of(heap: Global, layout: &Layout, group: u8) -> Result<Division, AllocError> {
        let mut division = Division {
            group,
            choices: Vec::new(heap),
            nodes: Vec::new(heap),
        };
        for (state, site) in (0..=u8::MAX).zip(layout.sites.iter()) {
            division.enter(heap, state, product(6, own(group, site.counts)))?;
        }
        for step in layout.steps.iter() {
            division.join(own(group, layout.counts(step.state)), *step)?;
        }
        Ok(division)
    }

    // Makes room for so many choices of the state.
    fn enter(&mut self, heap: Global, state: u8, many: u32) -> Result<(), AllocError> {
        self.nodes.push(Node {
            before: self.choices.len(),
            many,
            into: Vec::new(heap),
        })?;
        self.choices.extend((0..many).map(|_| Choice {
            state,
            number: 0,
            replies: 0,
        }))
    }

    // The place of the vector's choice among the choices of all states.
    fn place(&self, own: Counts, step: Step) -> usize {
        let node = self.nodes.get(step.state as usize);
        let before = node.map_or(0, |node| node.before);
        before.saturating_add(place_of(own, step.vector) as usize)
    }

    // Takes a step apart into the choice and the reply to it.
    fn join(&mut self, own: Counts, step: Step) -> Result<(), AllocError> {
        let place = self.place(own, step);
        if let Some(choice) = self.choices.get_mut(place) {
            choice.number = step.vector & mask(self.group);
            choice.replies = choice.replies.saturating_add(1);
        }
        if let Some(node) = self.nodes.get_mut(step.next as usize) {
            node.into.push(Arc {
                state: step.state,
                choice: place,
            })?;
        }
        Ok(())
    }

    // The number is one of the state's choices.
    pub fn has_choice(&self, state: u8, number: u32) -> bool {
        self.choices
            .iter()
            .any(|choice| choice.state == state && choice.number == number)
    }
}
