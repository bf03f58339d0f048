// The entries of a binding: which are taken, and where they lead.
use crate::division::{Division, mask, members, ones};
use crate::layout::{Counts, Layout, Step, first_states};
use crate::places::{at, put};
use crate::rules::everybody;
use crate::tally::{Notes, add};
use crate::words::Why;
use binding::Binding;
use game::Game;
use std::alloc::{AllocError, Global};

// Bits of players that no game here has.
const MISSING: u8 = 0xc0;

// The members have one move each, the others theirs.
fn are_held(group: u8, below: Counts, held: Counts) -> bool {
    let mut counts = below.iter().zip(held.iter()).zip(members(group));
    counts.all(|((free, held), member)| *held == if member { 1 } else { *free })
}

// A game, and what is expected of a binding of a group over it.
#[derive(Drop)]
struct Expected {
    group: u8,
    layout: Layout,
    division: Division,
    // The entry of each state.
    entries: Vec<u32>,
}

impl Expected {
    fn of<G: Game>(heap: Global, game: &G, group: u8) -> Result<Expected, AllocError> {
        let layout = Layout::of(heap, game)?;
        Ok(Expected {
            group,
            division: Division::of(heap, &layout, group)?,
            entries: vec![in heap; ones(group); layout.states as usize]?,
            layout,
        })
    }

    // Why the number is no entry for the state, if it is none.
    fn unfit(&self, state: u8, number: u32) -> Option<Why> {
        if u16::from(state) >= self.layout.states {
            Some(Why::NoState)
        } else if !self.division.has_choice(state, number) {
            Some(Why::NoChoice)
        } else {
            None
        }
    }

    // The step of the binding leads where its entry and the reply lead below.
    fn is_step(&self, step: Step) -> bool {
        let entry = at(&self.entries, step.state as usize, 0);
        let choice = step.vector & mask(self.group);
        let reply = step.vector ^ choice;
        choice == ones(self.group) && self.layout.next(step.state, reply | entry) == Some(step.next)
    }

    // The binding is the game below with the group held to the entries.
    fn is_bound(&self, above: &Layout) -> bool {
        let below = &self.layout;
        above.players == below.players
            && above.states == below.states
            && above.sites.len() == below.sites.len()
            && above.astray == 0
            && below.sites.iter().zip(above.sites.iter()).all(|(free, held)| {
                free.labels == held.labels && are_held(self.group, free.counts, held.counts)
            })
            && above.steps.iter().all(|step| self.is_step(*step))
    }
}

fn refused_set<G: Game>(binding: &mut Binding<G>, state: u8, choice: u32) -> Option<u8> {
    binding.set(state, choice).err().map(u8::from)
}

// Tries each number as the entry of the state. The entry is then the last that was taken.
fn try_entries<G: Game>(
    notes: &mut Notes<'_>,
    binding: &mut Binding<G>,
    expected: &mut Expected,
    state: u8,
) -> Result<(), AllocError> {
    for number in 0..0x500u32 {
        let due = expected.unfit(state, number).map(u8::from);
        let refused = refused_set(binding, state, number);
        notes.demand(refused == due, "an entry is taken or refused")?;
        match refused {
            None => put(&mut expected.entries, state as usize, number),
            Some(refusal) => {
                notes.tally.given(refusal);
                add(&mut notes.tally.compared.refused, 1);
            }
        }
        add(&mut notes.tally.compared.calls, 1);
    }
    Ok(())
}

// The binding is as it should be.
fn check<G: Game>(
    notes: &mut Notes<'_>,
    binding: &Binding<G>,
    expected: &Expected,
    what: &str,
) -> Result<(), AllocError> {
    let above = Layout::of(notes.tally.heap, binding)?;
    notes.demand(expected.is_bound(&above), what)
}

// A binding of the group, whose entries are tried at each state, and at one that there is not.
fn enter_group<G: Game + Drop>(notes: &mut Notes<'_>, game: G, group: u8) -> Result<G, AllocError> {
    let mut expected = Expected::of(notes.tally.heap, &game, group)?;
    let mut binding = Binding::new(game, group | MISSING);
    check(notes, &binding, &expected, "a new binding")?;
    for state in first_states(expected.layout.states.saturating_add(1)) {
        try_entries(notes, &mut binding, &mut expected, state)?;
    }
    check(notes, &binding, &expected, "a binding")?;
    add(&mut notes.tally.compared.games, 1);
    Ok(binding.close())
}

// Bindings of each group of the game, up to four players, over the game and over a binding of player 1.
pub fn enter_all<G: Game + Drop>(notes: &mut Notes<'_>, game: G) -> Result<(), AllocError> {
    let all = everybody(game.players());
    let mut game = game;
    for group in (0..=all).take(16) {
        game = enter_group(notes, game, group)?;
    }
    enter_group(notes, Binding::new(game, 1), all.min(3))?;
    Ok(())
}
