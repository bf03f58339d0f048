// The two sides of a state: what a group chooses, and what the others reply.
ghost use Rattle.std.specs.Prelude.{◌≡◌, ◌<◌, min, ◌&&◌, Decides, nat_le, nat_lt};
ghost use Rattle.game.specs.Structure.{Vector, Choice};
ghost use Rattle.game.specs.Lists.{member, own, other, highest, under};
ghost use Rattle.game.specs.Divided.{Divided};

use crate::interface::Game;

// The highest choice of a group at a state and the highest reply to it, four bits a player.
#[derive(Clone, Copy)]
pub struct Sides {
    pub players: u8,
    pub choice: u32,
    pub reply: u32,
}

// Whether the player is in the group.
#[tactic(auto, using(crate::proofs::Tested::no_ninth))]
pub fn is_member(group: u8, player: u8) -> bool
    ensures { result ≡ member player group }
{
    player <= 8 && (group >> player.saturating_sub(1)) % 2 == 1
}

impl Sides {
    // The sides of a state for a group, each move count asked once. Game, state and group stay three parameters, here and
    // above: a struct that lends the game would put its path into each clause.
    #[tactic(auto, using(crate::proofs::Highest::rooms, crate::proofs::Highest::all_passed, crate::proofs::Highest::highest_none))]
    pub fn at<G: Game>(game: &G, state: u8, group: u8) -> Sides
        ensures players { result.players ≡ (G.Game.meaning game.now).players }
        ensures choice { result.choice ≡ highest (own (G.Game.meaning game.now) group state) 0 (G.Game.meaning game.now).players }
        ensures reply { result.reply ≡ highest (other (G.Game.meaning game.now) group state) 0 (G.Game.meaning game.now).players }
        ensures divided { state < (G.Game.meaning game.now).states → Divided (G.Game.meaning game.now) group state }
    {
        let players = game.players();
        let mut choice = 0;
        let mut reply = 0;
        for player in (1..=players).rev() {
            let moves = game.moves(player, state) as u32;
            choice *= 16;
            reply *= 16;
            if is_member(group, player) {
                choice += moves;
            } else {
                reply += moves;
            }
        }
        Sides {
            players,
            choice,
            reply,
        }
    }
}

// Whether a digit is 0 where the limit is 0, and from 1 to the limit elsewhere.
fn allows(limit: u32, digit: u32) -> bool
    ensures { result ≡ (nat_le (min 1 limit) digit && nat_le digit limit) }
{
    (limit.min(1)..=limit).contains(&digit)
}

// Whether the number has so many digits in base 16, each 0 where `most` has 0 and from 1 to that digit elsewhere.
// What is left after the last digit counts too, which an iterator over the digits would not give back.
#[tactic(auto, using(crate::proofs::Under::under_not, crate::proofs::Under::under_more, crate::proofs::Under::under_none))]
pub fn is_under(players: u8, most: u32, number: u32) -> bool
    ensures { result ≡ under players most number }
{
    let mut limits = most;
    let mut rest = number;
    for _ in 0..players {
        if !allows(limits % 16, rest % 16) {
            return false;
        }
        limits /= 16;
        rest /= 16;
    }
    rest == 0
}

// Whether the state is there and the number under the highest of one of its sides.
fn admits<G: Game>(game: &G, state: u8, most: u32, number: u32) -> bool
    ensures { result ≡ (nat_lt state (G.Game.meaning game.now).states && under (G.Game.meaning game.now).players most number) }
{
    game.has_state(state) && is_under(game.players(), most, number)
}

// Whether the number is a vector of the state: nobody's replies are the vectors.
#[tactic(auto, using(crate::proofs::Tested::tests_vector))]
pub fn is_vector<G: Game>(game: &G, state: u8, number: u32) -> bool
    ensures { Decides result (Vector (G.Game.meaning game.now) state number) }
{
    let sides = Sides::at(game, state, 0);
    admits(game, state, sides.reply, number)
}

// Whether the number is a choice of the group at the state.
#[tactic(auto, using(crate::proofs::Tested::tests_choice))]
pub fn is_choice<G: Game>(game: &G, state: u8, group: u8, number: u32) -> bool
    ensures { Decides result ((state < (G.Game.meaning game.now).states) × Choice (G.Game.meaning game.now) group state number) }
{
    let sides = Sides::at(game, state, group);
    admits(game, state, sides.choice, number)
}
