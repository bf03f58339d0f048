// From a set of states backwards, one state at a time: which states are drawn into it, and after how many steps.
use crate::division::{Arc, Division};
use crate::places::{at, put};
use std::alloc::{AllocError, Global};
use std::collections::VecDeque;
use std::mem;

pub fn flag(flags: &[bool], state: u8) -> bool {
    at(flags, state as usize, false)
}

// What is wanting before a state is drawn in.
pub trait Wanting: Drop {
    // So much is wanting at first.
    fn all(heap: Global, division: &Division) -> Result<Self, AllocError>;

    // One more reply leads in. Whether nothing is wanting any more.
    fn lower(&mut self, arc: Arc) -> bool;
}

// A state is drawn in once all replies to one of its choices lead in.
#[derive(Drop)]
pub struct AllReplies {
    // The replies to each choice that do not lead in yet.
    replies: Vec<u32>,
}

impl Wanting for AllReplies {
    fn all(heap: Global, division: &Division) -> Result<AllReplies, AllocError> {
        let replies = division.choices.iter().map(|choice| choice.replies);
        Ok(AllReplies {
            replies: replies.collect(heap)?,
        })
    }

    fn lower(&mut self, arc: Arc) -> bool {
        lowered(&mut self.replies, arc.choice)
    }
}

// A state is drawn in once each of its choices has a reply that leads in.
#[derive(Drop)]
pub struct EachChoice {
    // The choices that have a reply which leads in.
    struck: Vec<bool>,
    // How many choices of each state have none yet.
    choices: Vec<u32>,
}

impl EachChoice {
    // Strikes the choice off. Whether it still stood.
    fn strike(&mut self, choice: usize) -> bool {
        self.struck
            .get_mut(choice)
            .is_some_and(|struck| !mem::replace(struck, true))
    }
}

impl Wanting for EachChoice {
    fn all(heap: Global, division: &Division) -> Result<EachChoice, AllocError> {
        let choices = division.nodes.iter().map(|node| node.many);
        Ok(EachChoice {
            struck: vec![in heap; false; division.choices.len()]?,
            choices: choices.collect(heap)?,
        })
    }

    fn lower(&mut self, arc: Arc) -> bool {
        self.strike(arc.choice) && lowered(&mut self.choices, arc.state as usize)
    }
}

// Lowers the count by one. Whether it came to 0.
fn lowered(counts: &mut [u32], place: usize) -> bool {
    counts.get_mut(place).is_some_and(|count| {
        *count = count.saturating_sub(1);
        *count == 0
    })
}

// The states that are drawn in so far: those whose arcs are still to be followed, and the numbers.
#[derive(Drop)]
struct Flood<W> {
    wanting: W,
    queue: VecDeque<u8>,
    numbers: Vec<Option<u16>>,
}

impl<W: Wanting> Flood<W> {
    // A state that has no number gets this one.
    fn reach(&mut self, state: u8, number: u16) -> Result<(), AllocError> {
        if let Some(place) = self.numbers.get_mut(state as usize) {
            if place.is_none() {
                *place = Some(number);
                self.queue.push_back(state)?;
            }
        }
        Ok(())
    }

    // The state is in: what leads to it wants less.
    fn take(&mut self, division: &Division, state: u8, open: &[bool]) -> Result<(), AllocError> {
        let number = at(&self.numbers, state as usize, None).unwrap_or(0);
        let Some(node) = division.nodes.get(state as usize) else {
            return Ok(());
        };
        for arc in node.into.iter() {
            if self.wanting.lower(*arc) && flag(open, arc.state) {
                self.reach(arc.state, number.saturating_add(1))?;
            }
        }
        Ok(())
    }
}

// The numbers of the states: 0 for the seeds, then one more than the state that drew an open state in; none for those that are never drawn in.
pub fn numbers<W: Wanting>(
    heap: Global,
    division: &Division,
    seeds: &[bool],
    open: &[bool],
) -> Result<Vec<Option<u16>>, AllocError> {
    let mut flood: Flood<W> = Flood {
        wanting: W::all(heap, division)?,
        queue: VecDeque::new(heap),
        numbers: vec![in heap; None; seeds.len()]?,
    };
    for (state, seed) in (0..=u8::MAX).zip(seeds.iter()) {
        if *seed {
            flood.reach(state, 0)?;
        }
    }
    // Each of at most 256 states comes once.
    for _ in 0..=u8::MAX {
        let Some(state) = flood.queue.pop_front() else {
            break;
        };
        flood.take(division, state, open)?;
    }
    Ok(flood.numbers)
}

// The states that are drawn into the seeds by one step.
pub fn drawn<W: Wanting>(
    heap: Global,
    division: &Division,
    seeds: &[bool],
) -> Result<Vec<bool>, AllocError> {
    let mut wanting = W::all(heap, division)?;
    let mut drawn = vec![in heap; false; seeds.len()]?;
    let seeded = division
        .nodes
        .iter()
        .zip(seeds.iter())
        .filter(|(_, seed)| **seed);
    for arc in seeded.flat_map(|(node, _)| node.into.iter()) {
        if wanting.lower(*arc) {
            put(&mut drawn, arc.state as usize, true);
        }
    }
    Ok(drawn)
}
