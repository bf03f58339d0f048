// What the second judge says of a rule.
use crate::division::{Division, ones};
use crate::flood::{AllReplies, EachChoice, Wanting, drawn, numbers};
use crate::layout::{Layout, first_states};
use crate::places::put;
use crate::words::{Goal, Kind, Rule};
use std::alloc::{AllocError, Global};

// A settled rule's verdict at a state, and the number of its mark. A struct and no enum of the two verdicts: either has a number or none,
// and most readers ask for one of the two alone.
#[derive(Clone, Copy, PartialEq, Eq)]
pub struct Mark {
    pub yes: bool,
    pub number: Option<u16>,
}

// A settled rule: its mark at each state, how many states each of its rounds marks, and its playbook if it has one.
#[derive(Drop)]
pub struct Judged {
    pub marks: Vec<Mark>,
    pub marked: Vec<u16>,
    pub playbook: Option<Vec<u32>>,
}

// The marks of a rule's parts.
#[derive(Clone, Copy)]
pub struct Parts<'a> {
    pub r: &'a [Mark],
    pub s: &'a [Mark],
}

fn is_yes(marks: &[Mark], state: u8) -> bool {
    marks.get(state as usize).is_some_and(|mark| mark.yes)
}

// The steps that an until needs from the state; more than any where it is not yes.
fn steps(marks: &[Mark], state: u8) -> u16 {
    marks
        .get(state as usize)
        .and_then(|mark| mark.number)
        .unwrap_or(u16::MAX)
}

impl Parts<'_> {
    // The first part is yes at the state.
    pub fn r(self, state: u8) -> bool {
        is_yes(self.r, state)
    }

    // The second part is yes at the state.
    pub fn s(self, state: u8) -> bool {
        is_yes(self.s, state)
    }
}

// Whether the test holds, for each of the states.
fn flags<F: FnMut(u8) -> bool>(heap: Global, states: u16, test: F) -> Result<Vec<bool>, AllocError>
    requires { (state : F) (x : _) → F.pre state x }
{
    first_states(states).map(test).collect(heap)
}

// How many states each round marks, by the numbers: the last round marks none.
fn marked(heap: Global, numbers: &[Option<u16>]) -> Result<Vec<u16>, AllocError> {
    let most = numbers.iter().filter_map(|number| *number).max();
    let rounds = most.map_or(1, |most| most.saturating_add(2));
    (0..rounds)
        .map(|round| {
            let states = numbers.iter().filter(|number| **number == Some(round));
            u16::try_from(states.count()).unwrap_or(u16::MAX)
        })
        .collect(heap)
}

// A rule that one round settles.
fn at_once(heap: Global, yes: &[bool]) -> Result<Judged, AllocError> {
    let marks = yes.iter().map(|yes| Mark {
        yes: *yes,
        number: Some(0),
    });
    let states = u16::try_from(yes.len()).unwrap_or(u16::MAX);
    Ok(Judged {
        marks: marks.collect(heap)?,
        marked: vec![in heap; states]?,
        playbook: None,
    })
}

// A rule that one round settles, which is yes at the states where the test holds.
fn by_test<F: FnMut(u8) -> bool>(heap: Global, states: u16, test: F) -> Result<Judged, AllocError>
    requires { (state : F) (x : _) → F.pre state x }
{
    at_once(heap, &flags(heap, states, test)?)
}

// A rule that rounds settle, which is yes at the states that have a number, or at those that have none.
fn by_rounds(heap: Global, numbers: &[Option<u16>], some: bool) -> Result<Judged, AllocError> {
    let marks = numbers.iter().map(|number| Mark {
        yes: number.is_some() == some,
        number: *number,
    });
    Ok(Judged {
        marks: marks.collect(heap)?,
        marked: marked(heap, numbers)?,
        playbook: None,
    })
}

// A strategic rule that is to be judged.
#[derive(Drop)]
struct Strategic<'a> {
    heap: Global,
    states: u16,
    group: u8,
    division: Division,
    goal: Goal,
    parts: Parts<'a>,
}

impl<'a> Strategic<'a> {
    fn of(
        heap: Global,
        layout: &Layout,
        group: u8,
        goal: Goal,
        parts: Parts<'a>,
    ) -> Result<Strategic<'a>, AllocError> {
        Ok(Strategic {
            heap,
            states: layout.states,
            group,
            division: Division::of(heap, layout, group)?,
            goal,
            parts,
        })
    }

    fn next<W: Wanting>(&self) -> Result<Judged, AllocError> {
        let parts = self.parts;
        let seeds = flags(self.heap, self.states, |state| parts.r(state))?;
        let drawn = drawn::<W>(self.heap, &self.division, &seeds)?;
        at_once(self.heap, &drawn)
    }

    fn until<W: Wanting>(&self) -> Result<Judged, AllocError> {
        let parts = self.parts;
        let seeds = flags(self.heap, self.states, |state| parts.s(state))?;
        let open = flags(self.heap, self.states, |state| parts.r(state))?;
        let numbers = numbers::<W>(self.heap, &self.division, &seeds, &open)?;
        by_rounds(self.heap, &numbers, true)
    }

    // It is lost where neither part is yes, and where a state is drawn there before s.
    fn unless<W: Wanting>(&self) -> Result<Judged, AllocError> {
        let parts = self.parts;
        let lost = |state| !parts.r(state) && !parts.s(state);
        let seeds = flags(self.heap, self.states, lost)?;
        let open = flags(self.heap, self.states, |state| !parts.s(state))?;
        let numbers = numbers::<W>(self.heap, &self.division, &seeds, &open)?;
        by_rounds(self.heap, &numbers, false)
    }

    // The first is how a state is drawn in by those who want the goal, the second by the others.
    fn judged<W: Wanting, V: Wanting>(&self) -> Result<Judged, AllocError> {
        match self.goal {
            Goal::Next => self.next::<W>(),
            Goal::Until => self.until::<W>(),
            Goal::Unless => self.unless::<V>(),
        }
    }

    // A choice at the state may lead to the next.
    fn is_aimed(&self, marks: &[Mark], state: u8, next: u8) -> bool {
        is_yes(marks, state)
            && match self.goal {
                Goal::Next => self.parts.r(next),
                Goal::Until => steps(marks, next) < steps(marks, state),
                Goal::Unless => !self.parts.s(state) && is_yes(marks, next),
            }
    }

    // The choices, by place, of which some reply leads elsewhere than it should.
    fn failing(&self, marks: &[Mark]) -> Result<Vec<bool>, AllocError> {
        let mut failing = vec![in self.heap; false; self.division.choices.len()]?;
        for (next, node) in (0..=u8::MAX).zip(self.division.nodes.iter()) {
            for arc in node.into.iter() {
                if !self.is_aimed(marks, arc.state, next) {
                    put(&mut failing, arc.choice, true);
                }
            }
        }
        Ok(failing)
    }

    // The playbook: the smallest choice of the state that does not fail, and each member's move 1 where all fail.
    fn playbook(&self, marks: &[Mark]) -> Result<Vec<u32>, AllocError> {
        let failing = self.failing(marks)?;
        let mut playbook: Vec<Option<u32>> = vec![in self.heap; None; self.states as usize]?;
        let choices = self.division.choices.iter().zip(failing.iter());
        for (choice, _) in choices.filter(|(_, fails)| !**fails) {
            if let Some(chosen) = playbook.get_mut(choice.state as usize) {
                chosen.get_or_insert(choice.number);
            }
        }
        let ones = ones(self.group);
        playbook
            .iter()
            .map(|chosen| chosen.unwrap_or(ones))
            .collect(self.heap)
    }
}

impl Judged {
    pub fn of(
        heap: Global,
        layout: &Layout,
        rule: Rule,
        parts: Parts<'_>,
    ) -> Result<Judged, AllocError> {
        let states = layout.states;
        match rule.kind {
            Kind::Label => by_test(heap, states, |state| layout.has_label(state, rule.r)),
            Kind::Not => by_test(heap, states, |state| !parts.r(state)),
            Kind::Or => by_test(heap, states, |state| parts.r(state) || parts.s(state)),
            Kind::Can(goal) => {
                let strategic = Strategic::of(heap, layout, rule.group, goal, parts)?;
                let mut judged = strategic.judged::<AllReplies, EachChoice>()?;
                judged.playbook = Some(strategic.playbook(&judged.marks)?);
                Ok(judged)
            }
            Kind::CannotHelp(goal) => {
                let strategic = Strategic::of(heap, layout, rule.group, goal, parts)?;
                strategic.judged::<EachChoice, AllReplies>()
            }
        }
    }
}
