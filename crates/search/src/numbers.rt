// The numbers under the highest one, four bits a player, from the lowest on.
ghost use Rattle.std.specs.Prelude.{◌≡◌, min, Some};
ghost use Rattle.std.specs.Iterator.{YieldsFirst, item_count};
ghost use Rattle.game.specs.Lists.{from, lowest as lowest_of, following as following_of};
ghost use Rattle.search.specs.Left.{numbers_left};

// The first move of one who has so many: 1, or 0 where there is none.
fn first_move(moves: u32) -> u32
    ensures { result ≡ min moves 1 }
{
    moves.min(1)
}

// The lowest number under the highest one. Like the next one it is made from its last digit on, so no digit's weight is carried along.
#[tactic(auto, using(crate::proofs::Turns::lowest_none, crate::proofs::Turns::lowest_turn, crate::proofs::Turns::lowest_room))]
pub fn lowest(players: u8, highest: u32) -> u32
    ensures { result ≡ lowest_of players highest }
{
    if players == 0 {
        return 0;
    }
    lowest(players - 1, highest / 16) * 16 + first_move(highest % 16)
}

// The next number under the highest one: the digits that are at their limits go back to the lowest, and the one after them goes up.
#[tactic(auto, using(crate::proofs::Turns::following_none, crate::proofs::Turns::following_low, crate::proofs::Turns::following_last, crate::proofs::Turns::following_more, crate::proofs::Turns::following_room))]
fn following(players: u8, highest: u32, number: u32) -> Option<u32>
    ensures { result ≡ following_of players highest number }
{
    if players == 0 {
        return None;
    }
    if number % 16 < highest % 16 {
        return Some(number + 1);
    }
    let others = following(players - 1, highest / 16, number / 16)?;
    Some(others * 16 + first_move(highest % 16))
}

// Where an iterator stands: at the number that comes next, or after the last one that was given.
#[derive(Clone, Copy)]
enum Place {
    At(u32),
    After(u32),
}

// The numbers that are still to come. The next one is made only when it is asked for, since the first reply often decides a choice.
// It is `Copy`, since each choice goes through the replies again.
#[derive(Clone, Copy)]
pub struct Numbers {
    players: u8,
    highest: u32,
    place: Place,
}

impl Numbers {
    // All numbers under the highest one.
    pub fn under(players: u8, highest: u32) -> Numbers
        ensures { numbers_left result ≡ from players highest (Some (lowest_of players highest)) }
    {
        Numbers {
            players,
            highest,
            place: Place::At(lowest(players, highest)),
        }
    }
}

impl Iterator for Numbers {
    type Item = u32;

    ghost next_gives = { YieldsFirst numbers_left };

    ghost remaining = { item_count numbers_left };

    #[tactic(auto, using(crate::proofs::Turns::left_none, crate::proofs::Turns::left_some, crate::proofs::Turns::progress))]
    fn next(&mut self) -> Option<u32> {
        let number = match self.place {
            Place::At(number) => number,
            Place::After(number) => following(self.players, self.highest, number)?,
        };
        self.place = Place::After(number);
        Some(number)
    }
}
