// The playbook of a settled can-rule.
ghost use Rattle.std.specs.Prelude.{◌≡◌, ◌+◌, ◌*◌, ◌<◌, length, nat_le};
ghost use Rattle.game.specs.Serving.{set_of};
ghost use Rattle.atl.specs.Playbook.{keep_to, yes_below};
ghost use Rattle.table.specs.Answers.{play_answer, copy_answer, book_bytes};
ghost use Rattle.table.specs.Shows.{Answers};
ghost use Rattle.table.specs.Books.{Below, choice_of, book_in, Buffered, KeptIfRefused};

use crate::rule::has;
use crate::types::{Condition, Parts, Rule, Table};
use atl::{Kind, Mark, Modality, Temporal};
use game::Game;
use refusal::Refusal;
use search::{first_choice, serving};
use std::array;

// A yes with a number below this one.
fn yes_below(number: u16, mark: Mark) -> bool
    ensures { result ≡ yes_below number mark }
{
    matches!(mark, Mark::Yes(k) if k < number)
}

// The smallest choice all of whose replies lead into the set; where there is none, move 1 for each member.
fn kept_to<G: Game>(game: &G, state: u8, group: u8, inside: &[bool; 256]) -> u32
    ensures { result ≡ keep_to (G.Game.meaning game.now) group state (set_of inside.now) }
{
    serving(game, state, group, inside).unwrap_or_else(|| first_choice(game, state, group))
}

// Whether so many bytes from the place on are within the length.
fn has_room(len: usize, place: usize, size: usize) -> bool
    ensures { result ≡ nat_le (place + size) len }
{
    place.checked_add(size).is_some_and(|end| end <= len)
}

// Where the state's choice stands in a playbook's bytes.
fn place_of(state: u16) -> usize
    ensures { result ≡ state * 4 }
{
    usize::from(state) * 4
}

impl Rule {
    // The states marked yes with a number below this one.
    fn yes_states_below(&self, number: u16) -> [bool; 256]
        ensures { Below self.now number result }
    {
        array::from_fn(|state| yes_below(number, self.marks[state]))
    }

    // What kind of playbook the rule has, or why it has none.
    fn book(&self) -> Result<Temporal, Refusal>
        ensures { result ≡ book_in self.now }
    {
        match (self.condition, self.kind) {
            (Condition::Settled(_), Kind::Strategic(Modality::Can, temporal)) => Ok(temporal),
            (Condition::Settled(_), _) => Err(Refusal::NoPlaybook),
            _ => Err(Refusal::NotSettled),
        }
    }

    // The choice of the playbook at a state.
    fn choice<G: Game>(&self, game: &G, temporal: Temporal, state: u8, parts: &Parts) -> u32
        ensures { state < (G.Game.meaning game.now).states → result ≡ choice_of (G.Game.meaning game.now) self.now parts.now temporal state }
    {
        match (self.marks[state as usize], temporal) {
            (Mark::Yes(_), Temporal::Next) => kept_to(game, state, self.group, &parts.r),
            (Mark::Yes(number), Temporal::Until) if number > 0 => {
                kept_to(game, state, self.group, &self.yes_states_below(number))
            }
            (Mark::Yes(_), Temporal::Unless) if !has(&parts.s, state) => {
                kept_to(game, state, self.group, &self.yes_states())
            }
            _ => first_choice(game, state, self.group),
        }
    }

    // The choices at the states in their order, four bytes each, the highest first.
    fn write_choices<G: Game>(&self, game: &G, temporal: Temporal, parts: &Parts, bytes: &mut [u8])
        requires { length bytes.old ≡ 4 * (G.Game.meaning game.now).states }
        ensures { bytes.new ≡ book_bytes (choice_of (G.Game.meaning game.now) self.now parts.now temporal) (G.Game.meaning game.now).states }
    {
        // By index, since a loop over chunks_exact_mut tells nothing of what it wrote.
        let (states, _) = game.states();
        for state in 0..states {
            let choice = self.choice(game, temporal, state as u8, parts);
            let at = place_of(state);
            bytes[at..at + 4].copy_from_slice(&choice.to_be_bytes());
        }
    }
}

impl Table {
    pub fn play<G: Game>(&self, game: &G, rule: u8, state: u8) -> Result<u32, Refusal>
        ensures { Answers (G.Game.meaning game.now) (play_answer (G.Game.meaning game.now) rule state) self.now result }
    {
        let rule = self.find(rule)?;
        if !game.has_state(state) {
            return Err(Refusal::NoState);
        }
        let temporal = rule.book()?;
        let parts = self.parts(rule);
        Ok(rule.choice(game, temporal, state, &parts))
    }

    pub fn copy<G: Game>(
        &self,
        game: &G,
        rule: u8,
        buffer: &mut [u8],
        place: usize,
    ) -> Result<usize, Refusal>
        ensures answer { Answers (G.Game.meaning game.now) (copy_answer (G.Game.meaning game.now) rule place (length buffer.old)) self.now result }
        ensures buffer { Buffered (G.Game.meaning game.now) self.now rule place buffer.old buffer.new }
        ensures refused { KeptIfRefused result buffer.old buffer.new }
    {
        let rule = self.find(rule)?;
        let temporal = rule.book()?;
        let (states, _) = game.states();
        let size = usize::from(states) * 4;
        if !has_room(buffer.len(), place, size) {
            return Err(Refusal::NoRoom);
        }
        let parts = self.parts(rule);
        rule.write_choices(game, temporal, &parts, &mut buffer[place..place + size]);
        Ok(size)
    }
}
