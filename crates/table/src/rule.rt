// One rule of the table: its rounds.
ghost use Rattle.std.specs.Prelude.{◌≡◌, suc, ◌<◌, ◌≤◌, true, not, ◌&&◌, ◌||◌, if◌then◌else◌, ◌==◌};
ghost use Rattle.game.specs.Serving.{set_of};
ghost use Rattle.atl.specs.declared.Mark.TheVariants.{Open};
ghost use Rattle.atl.specs.Rounds.{holds as holds_for, labelled as labelled_at, is_open, one_round, closed as closed_as, once};
ghost use Rattle.table.specs.Shows.{condition_of};
ghost use Rattle.table.specs.Steps.{rounds_in, is_settled, fresh_rule, YesMarks, aimed, Aim, proposal, new_mark, Passed, Closed, Worked};

use crate::types::{Condition, Parts, Rule, Sets};
use atl::{Kind, Mark, Modality, Temporal};
use game::Game;
use search::{answering, serving};
use std::array;

impl Condition {
    pub(crate) fn rounds(self) -> u16
        ensures { result ≡ rounds_in self }
    {
        match self {
            Condition::Fresh => 0,
            Condition::Working(rounds) | Condition::Settled(rounds) => rounds,
        }
    }

    pub(crate) fn is_settled(self) -> bool
        ensures { result ≡ is_settled self }
    {
        matches!(self, Condition::Settled(_))
    }

    // The condition after a round that marked so many states. The sum saturates: the type allows any count of rounds, though a rule that stands has few.
    fn after(self, kind: Kind, marked: u16) -> Condition
        ensures { rounds_in self < 65535 → result ≡ condition_of (suc (rounds_in self)) (one_round kind || marked == 0) }
    {
        let done = self.rounds().saturating_add(1);
        match kind {
            Kind::Strategic(_, Temporal::Until | Temporal::Unless) if marked > 0 => {
                Condition::Working(done)
            }
            _ => Condition::Settled(done),
        }
    }
}

// Whether the state is in the set. A function, so that the proofs of the rounds open the definition of a set in one place.
pub(crate) fn has(set: &[bool; 256], state: u8) -> bool
    ensures { result ≡ set_of set.now state }
{
    set[state as usize]
}

// Whether the state holds for the set.
fn holds<G: Game>(game: &G, modality: Modality, group: u8, state: u8, inside: &[bool; 256]) -> bool
    ensures { result ≡ holds_for (G.Game.meaning game.now) modality group state (set_of inside.now) }
{
    match modality {
        Modality::Can => serving(game, state, group, inside).is_some(),
        Modality::Despite => answering(game, state, group, inside),
    }
}

fn labelled<G: Game>(game: &G, label: u8, state: u8) -> bool
    ensures { result ≡ labelled_at (G.Game.meaning game.now) label state }
{
    label < 16 && (game.labels(state) >> label) % 2 == 1
}

// The mark of a state that one round decides.
fn decided(yes: bool) -> Mark
    ensures { result ≡ once «yes» 1 }
{
    if yes { Mark::Yes(0) } else { Mark::No(0) }
}

fn mark_if(test: bool, mark: Mark) -> Mark
    ensures { result ≡ (if test then mark else Open) }
{
    if test { mark } else { Mark::Open }
}

// 1 if a round marked the state, else 0.
fn newly(old: Mark, new: Mark) -> u16
    ensures { result ≡ (if is_open old && not (is_open new) then 1 else 0) }
{
    u16::from(old.is_open() && !new.is_open())
}

// What a mark becomes when the rule settles.
fn closed(kind: Kind, mark: Mark) -> Mark
    ensures { result ≡ closed_as kind true mark }
{
    match (mark, kind) {
        (Mark::Open, Kind::Strategic(_, Temporal::Unless)) => Mark::Yes(256),
        (Mark::Open, _) => Mark::No(256),
        (marked, _) => marked,
    }
}

// Whether a state with this mark is aimed at.
fn aimed_at(kind: Kind, mark: Mark) -> bool
    ensures { result ≡ aimed kind mark }
{
    match kind {
        Kind::Strategic(_, Temporal::Unless) => mark.is_open(),
        _ => mark.is_yes(),
    }
}

impl Rule {
    pub(crate) fn fresh(kind: Kind, group: u8, r: u8, s: u8) -> Rule
        ensures { result ≡ fresh_rule kind group r s }
    {
        Rule {
            kind,
            group,
            r,
            s,
            marks: [Mark::Open; 256],
            condition: Condition::Fresh,
        }
    }

    // The states marked yes.
    pub(crate) fn yes_states(&self) -> [bool; 256]
        ensures { YesMarks self.now result }
    {
        array::from_fn(|state| self.marks[state].is_yes())
    }

    // The states that the next round of an until or an unless aims at: those marked yes, or those open.
    fn aim(&self) -> [bool; 256]
        ensures { Aim self.now result }
    {
        array::from_fn(|state| aimed_at(self.kind, self.marks[state]))
    }

    // What the next round marks an open state with.
    fn proposal<G: Game>(&self, game: &G, state: u8, sets: &Sets) -> Mark
        ensures { result ≡ proposal (G.Game.meaning game.now) self.now sets.now state }
    {
        let r = has(&sets.parts.r, state);
        let s = has(&sets.parts.s, state);
        match (self.condition, self.kind) {
            (_, Kind::Label) => decided(labelled(game, self.r, state)),
            (_, Kind::Not) => decided(!r),
            (_, Kind::Or) => decided(r || s),
            (_, Kind::Strategic(modality, Temporal::Next)) => {
                decided(holds(game, modality, self.group, state, &sets.parts.r))
            }
            (Condition::Fresh, Kind::Strategic(_, Temporal::Until)) => mark_if(s, Mark::Yes(0)),
            (Condition::Fresh, Kind::Strategic(_, Temporal::Unless)) => mark_if(
                !r && !s,
                Mark::No(0),
            ),
            (Condition::Working(k), Kind::Strategic(modality, Temporal::Until)) => {
                mark_if(
                    r && holds(game, modality, self.group, state, &sets.aim),
                    Mark::Yes(k),
                )
            }
            (Condition::Working(k), Kind::Strategic(modality, Temporal::Unless)) => {
                mark_if(
                    !s && !holds(game, modality, self.group, state, &sets.aim),
                    Mark::No(k),
                )
            }
            (Condition::Settled(_), Kind::Strategic(_, _)) => Mark::Open,
        }
    }

    fn new_mark<G: Game>(&self, game: &G, state: u8, old: Mark, sets: &Sets) -> Mark
        ensures { result ≡ new_mark (G.Game.meaning game.now) self.now sets.now state old }
    {
        if old.is_open() {
            self.proposal(game, state, sets)
        } else {
            old
        }
    }

    // Marks the states that the next round marks, and counts them.
    fn pass<G: Game>(&mut self, game: &G, sets: &Sets) -> u16
        ensures { Passed (G.Game.meaning game.now) self.old sets.now (G.Game.meaning game.now).states self.new result }
    {
        // By index, since new_mark reads the whole rule while its marks are written.
        let (states, _) = game.states();
        let mut marked: u16 = 0;
        for state in 0..states {
            let old = self.marks[state as usize];
            let new = self.new_mark(game, state as u8, old, sets);
            self.marks[state as usize] = new;
            marked += newly(old, new);
        }
        marked
    }

    // Gives the states that are still open what a settled rule says of them.
    fn close(&mut self, states: u16)
        requires { states ≤ 256 }
        ensures { Closed states self.old self.new }
    {
        let kind = self.kind;
        for mark in &mut self.marks[..usize::from(states)] {
            *mark = closed(kind, *mark);
        }
    }

    // One more round, over the yes states of the parts: marks what it marks, and moves the rule on.
    pub(crate) fn round<G: Game>(&mut self, game: &G, parts: Parts) -> u16
        ensures { rounds_in self.old.condition < 65535 → Worked (G.Game.meaning game.now) self.old parts self.new result }
    {
        let sets = Sets {
            parts,
            aim: self.aim(),
        };
        let marked = self.pass(game, &sets);
        self.condition = self.condition.after(self.kind, marked);
        if self.condition.is_settled() {
            let (states, _) = game.states();
            self.close(states);
        }
        marked
    }
}
