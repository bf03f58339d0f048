// The search for a choice that leads into a set of states, whatever the others reply, and its dual.
#![tactic(auto)]

ghost use Rattle.std.specs.Prelude.{◌≡◌, ◌+◌, ◌^◌, ◌<◌};
ghost use Rattle.game.specs.Lists.{own, choices as choices_of, replies as replies_of, highest as highest_of, lowest as lowest_of};
ghost use Rattle.game.specs.Serving.{set_of, within, first_serving, all_answered};
ghost use Rattle.game.specs.Reading.{Serving, Answering};
ghost use Rattle.search.specs.Left.{numbers_left, Short};

mod numbers;

use crate::numbers::{Numbers, lowest};
use game::{Game, Sides};

// Whether the reply to the choice leads to a state of the set.
#[tactic(auto, unfolding(game::specs::Serving::set_of))]
fn leads_in<G: Game>(game: &G, state: u8, choice: u32, reply: u32, inside: &[bool; 256]) -> bool
    requires choice { choice < 2 ^ 24 }
    requires reply { reply < 2 ^ 24 }
    ensures { result ≡ within (set_of inside.now) ((G.Game.meaning game.now).next state (choice + reply)) }
{
    game.next(state, choice + reply)
        .is_some_and(|t| inside[t as usize])
}

// The choices of the group at the state, and the replies to each.
fn choices_and_replies<G: Game>(game: &G, state: u8, group: u8) -> (Numbers, Numbers)
    ensures choices { numbers_left result.0 ≡ choices_of (G.Game.meaning game.now) group state }
    ensures replies { numbers_left result.1 ≡ replies_of (G.Game.meaning game.now) group state }
    ensures short_choices { Short (numbers_left result.0) }
    ensures short_replies { Short (numbers_left result.1) }
{
    let sides = Sides::at(game, state, group);
    (
        Numbers::under(sides.players, sides.choice),
        Numbers::under(sides.players, sides.reply),
    )
}

// The smallest choice of the group all of whose replies lead into the set. Loops and no chain of methods, as the search is told:
// a bad reply goes on with the next choice, and a choice without one ends the search.
#[tactic(auto, unfolding(game::specs::Serving::first_serving, game::specs::Serving::serves, game::specs::Serving::leads))]
pub fn serving<G: Game>(game: &G, state: u8, group: u8, inside: &[bool; 256]) -> Option<u32>
    ensures value { result ≡ first_serving (G.Game.meaning game.now) group state (set_of inside.now) }
    ensures plain { state < (G.Game.meaning game.now).states → Serving (G.Game.meaning game.now) group state (set_of inside.now) result }
{
    let (choices, replies) = choices_and_replies(game, state, group);
    let mut found = None;
    'choices: for choice in choices {
        for reply in replies {
            if !leads_in(game, state, choice, reply, inside) {
                continue 'choices;
            }
        }
        found = Some(choice);
        break;
    }
    found
}

// The lowest choice of the group: each member plays move 1.
pub fn first_choice<G: Game>(game: &G, state: u8, group: u8) -> u32
    ensures { result ≡ lowest_of (G.Game.meaning game.now).players (highest_of (own (G.Game.meaning game.now) group state) 0 (G.Game.meaning game.now).players) }
{
    let sides = Sides::at(game, state, group);
    lowest(sides.players, sides.choice)
}

// Whether every choice of the group has a reply that leads into the set.
#[tactic(auto, unfolding(game::specs::Serving::all_answered, game::specs::Serving::answers, game::specs::Serving::leads))]
pub fn answering<G: Game>(game: &G, state: u8, group: u8, inside: &[bool; 256]) -> bool
    ensures value { result ≡ all_answered (G.Game.meaning game.now) group state (set_of inside.now) }
    ensures plain { state < (G.Game.meaning game.now).states → Answering (G.Game.meaning game.now) group state (set_of inside.now) result }
{
    let (choices, replies) = choices_and_replies(game, state, group);
    'choices: for choice in choices {
        for reply in replies {
            if leads_in(game, state, choice, reply, inside) {
                continue 'choices;
            }
        }
        return false;
    }
    true
}
