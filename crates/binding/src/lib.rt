// A game laid over another, in which the members of a group have bound themselves to what a table says.
#![tactic(auto)]

ghost use Rattle.std.specs.Prelude.{◌≡◌, ℕ, replicate, if◌then◌else◌, nat_eq, slice_set};
ghost use Rattle.game.specs.Structure.{Structure, Choice};
ghost use Rattle.game.specs.Lists.{member, own, highest};
ghost use Rattle.game.specs.Bound.{bound, left, legal, placed};
ghost use Rattle.game.proofs.Bounding.{bound_limits};
ghost use Rattle.binding.specs.Entries.{entry_at, present, first_moves, FollowsLawful, AtFirst, KeepsLawful, Judged, Sets};

use game::{Game, Sides, is_choice, is_member, is_under};
use refusal::Refusal;

// What the group has bound itself to: its choice at each state. An array, since a binding never lacks memory.
#[derive(Drop)]
struct Entries {
    choices: [u32; 256],
}

impl Entries {
    // The same choice at each state.
    fn same(choice: u32) -> Entries
        ensures { result.choices ≡ replicate 256 choice }
    {
        Entries {
            choices: [choice; 256],
        }
    }

    // Alters the entry of the state alone.
    fn put(&mut self, state: u8, choice: u32)
        ensures alone { self.new.choices ≡ slice_set self.old.choices state choice }
        ensures lawful { (m : Structure) (B : ℕ) → Choice m B state choice → KeepsLawful m B self.old.choices self.new.choices }
    {
        self.choices[state as usize] = choice;
    }
}

// The game below, the group, and what the group has bound itself to.
#[derive(Drop)]
pub struct Binding<G> {
    game: G,
    group: u8,
    entries: Entries,
}

// Move 1 for each member of the group, four bits a player. The recursion takes any number of players; a loop's sum would need a bound on them.
#[tactic(auto, using(crate::proofs::Firsts::first_none, crate::proofs::Firsts::first_more, crate::proofs::Firsts::first_room))]
fn all_first(players: u8, group: u8) -> u32
    ensures { result ≡ first_moves players group }
{
    if players == 0 {
        return 0;
    }
    all_first(players - 1, group / 2) * 16 + (group % 2) as u32
}

// The move of one player: a member, who has a limit, plays the entry's, or 1 if that is none of its moves.
fn bound_move(limit: u32, entry: u32, played: u32) -> u32
    ensures { result ≡ (if nat_eq limit 0 then played else legal limit entry) }
{
    if limit == 0 {
        played
    } else if (1..=limit).contains(&entry) {
        entry
    } else {
        1
    }
}

// The vector with the entry's moves in the members' places. As in all_first, the recursion takes any number of players.
#[tactic(auto, using(crate::proofs::Replaced::placed_none, crate::proofs::Replaced::placed_more, crate::proofs::Replaced::placed_room))]
fn with_entry(players: u8, most: u32, entry: u32, vector: u32) -> u32
    ensures { result ≡ placed players most entry vector }
{
    if players == 0 {
        return 0;
    }
    let low = bound_move(most % 16, entry % 16, vector % 16);
    with_entry(players - 1, most / 16, entry / 16, vector / 16) * 16 + low
}

// Whether the number may be the group's entry for the state.
fn judged<G: Game>(game: &G, state: u8, group: u8, choice: u32) -> Result<(), Refusal>
    ensures { Judged (G.Game.meaning game.now) group state choice result }
{
    if !game.has_state(state) {
        return Err(Refusal::NoState);
    }
    if is_choice(game, state, group, choice) {
        Ok(())
    } else {
        Err(Refusal::NoChoice)
    }
}

// What a binding starts from: the group without missing players, and move 1 for each member everywhere.
fn at_first<G: Game>(game: &G, group: u8) -> (u8, Entries)
    ensures group { result.0 ≡ present (G.Game.meaning game.now).players group }
    ensures entries { result.1.choices ≡ replicate 256 (first_moves (G.Game.meaning game.now).players group) }
    ensures first { AtFirst (G.Game.meaning game.now) group result.0 (entry_at result.1.choices) }
    ensures follows { FollowsLawful (G.Game.meaning game.now) result.0 }
{
    let players = game.players();
    (
        group % (1 << players),
        Entries::same(all_first(players, group)),
    )
}

impl<G: Game> Binding<G> {
    // Lays a binding over the game. Bits of missing players in the group count as 0, and at first each entry gives every member move 1.
    pub fn new(game: G, group: u8) -> Binding<G>
        ensures game { result.game ≡ game }
        ensures group { result.group ≡ present (G.Game.meaning game).players group }
        ensures entries { result.entries.choices ≡ replicate 256 (first_moves (G.Game.meaning game).players group) }
        ensures first { AtFirst (G.Game.meaning game) group result.group (entry_at result.entries.choices) }
        ensures follows { FollowsLawful (G.Game.meaning game) result.group }
    {
        let (present, entries) = at_first(&game, group);
        Binding {
            game,
            group: present,
            entries,
        }
    }

    // Sets the entry of the state, a choice of the group in the game below.
    pub fn set(&mut self, state: u8, choice: u32) -> Result<(), Refusal>
        ensures answer { Judged (G.Game.meaning self.old.game) self.old.group state choice result }
        ensures entries { Sets state choice self.old.entries.choices self.new.entries.choices result }
        ensures lawful { KeepsLawful (G.Game.meaning self.old.game) self.old.group self.old.entries.choices self.new.entries.choices }
        ensures game { self.new.game ≡ self.old.game }
        ensures group { self.new.group ≡ self.old.group }
    {
        judged(&self.game, state, self.group, choice)?;
        self.entries.put(state, choice);
        Ok(())
    }

    // Gives the game below back.
    pub fn close(self) -> G
        ensures { result ≡ self.game }
    {
        self.game
    }
}

impl<G: Game> Game for Binding<G> {
    ghost meaning = { λ b. bound (G.Game.meaning b.game) b.group (entry_at b.entries.choices) };

    ghost limits = { λ b. bound_limits (G.Game.meaning b.game) b.group (entry_at b.entries.choices) (G.Game.limits b.game) };

    fn players(&self) -> u8 {
        self.game.players()
    }

    fn states(&self) -> (u16, u8) {
        self.game.states()
    }

    fn moves(&self, player: u8, state: u8) -> u8 {
        let moves = self.game.moves(player, state);
        if moves > 1 && is_member(self.group, player) {
            1
        } else {
            moves
        }
    }

    fn labels(&self, state: u8) -> u16 {
        self.game.labels(state)
    }

    #[tactic(auto, using(crate::proofs::Replaced::left_placed))]
    fn next(&self, state: u8, vector: u32) -> Option<u8> {
        if !self.game.has_state(state) {
            return None;
        }
        let sides = Sides::at(&self.game, state, self.group);
        // The entry 0 counts as move 1 for each member.
        let most = with_entry(sides.players, sides.choice, 0, sides.reply);
        if !is_under(sides.players, most, vector) {
            return None;
        }
        let entry = self.entries.choices[state as usize];
        self.game.next(
            state,
            with_entry(sides.players, sides.choice, entry, vector),
        )
    }
}
