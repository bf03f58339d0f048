// A book that was read, as a game.
ghost use Rattle.std.specs.Prelude.{◌≡◌, ◌+◌, ◌*◌, ◌/◌, ◌%◌, ◌^◌, ◌<◌, ◌≤◌, slice_index, nat_lt};
ghost use Rattle.game.specs.Lists.{highest};
ghost use Rattle.book.specs.Fields.{after as after_of};
ghost use Rattle.book.specs.Filed.{players_kept, states_kept, inside as inside_of, state_spot, count_at, moves_at, place as place_of};
ghost use Rattle.book.specs.Readers.{game_in, limits_in, told};

use crate::rules::Rules;
use game::{Game, is_under};

// The bytes of a book and what its heading says, as plain numbers and no Heading: it is a game whatever these are, and what is
// out of range reads as something in range.
#[derive(Drop)]
pub struct FiledBook<'a> {
    pub(crate) bytes: &'a [u8],
    pub(crate) players: u8,
    pub(crate) states: u16,
    pub(crate) start: u8,
    pub(crate) rules: Rules<'a>,
}

// A digit of a number in base 16, the lowest at 0.
fn digit(number: u32, k: u8) -> u32
    requires { k < 8 }
    ensures { result ≡ number / 16 ^ k % 16 }
{
    (number >> (4 * k)) % 16
}

// A vector's place among those under the highest: player 1's move counts fastest.
fn place(players: u8, most: u32, vector: u32) -> u32
    requires { players ≤ 6 }
    ensures is { result ≡ place_of players most vector }
    ensures near { result < 2 ^ 24 }
{
    let mut place: u32 = 0;
    for k in (0..players).rev() {
        let before = digit(vector, k).max(1) - 1;
        place = before + digit(most, k) * place;
    }
    place
}

impl<'a> FiledBook<'a> {
    // The rules of the book, in order.
    pub fn rules(&self) -> Rules<'a>
        ensures { told result ≡ told self.now.rules }
    {
        self.rules
    }

    // A byte, or 0 past the end.
    fn byte(&self, i: usize) -> u8
        ensures { result ≡ slice_index self.now.bytes.now i }
    {
        self.bytes.get(i).copied().unwrap_or(0)
    }

    // Two bytes as a number, the highest first. In a usize, as a place is: the place of each field waits for the one before it.
    fn number(&self, i: usize) -> usize
        requires { i < 2 ^ 48 }
        ensures is { result ≡ slice_index self.now.bytes.now i * 256 + slice_index self.now.bytes.now (i + 1) }
        ensures small { result < 2 ^ 16 }
    {
        usize::from(self.byte(i)) * 256 + usize::from(self.byte(i + 1))
    }

    fn player_count(&self) -> u8
        ensures { result ≡ players_kept self.now.players }
    {
        self.players.clamp(1, 6)
    }

    fn state_count(&self) -> u16
        ensures { result ≡ states_kept self.now.states }
    {
        self.states.clamp(1, 256)
    }

    fn is_state(&self, state: u8) -> bool
        ensures { result ≡ nat_lt state (states_kept self.now.states) }
    {
        u16::from(state) < self.state_count()
    }

    fn inside(&self, state: u8) -> u8
        ensures { result ≡ inside_of (states_kept self.now.states) state }
    {
        if self.is_state(state) { state } else { 0 }
    }

    // Where the field at `at` ends.
    fn after(&self, at: usize) -> usize
        requires { at < 2 ^ 40 }
        ensures is { result ≡ after_of self.now.bytes.now at }
        ensures near { result ≤ at + 65538 }
    {
        at + 3 + self.number(at + 1)
    }

    // Where the state's field stands.
    fn spot(&self, state: u8) -> usize
        ensures is { result ≡ state_spot self.now.bytes.now state }
        ensures near { result < 2 ^ 32 }
    {
        let mut at = self.after(0);
        for _k in 0..state {
            at = self.after(at);
        }
        at
    }

    fn count(&self, at: usize, player: u8) -> u8
        requires { at < 2 ^ 32 }
        ensures is { result ≡ count_at self.now.bytes.now at player }
        ensures some { 1 ≤ result }
        ensures few { result ≤ 15 }
    {
        let count = self.byte(at + 4 + usize::from(player));
        if (1..=15).contains(&count) { count } else { 1 }
    }

    // The counts of the state whose field is at `at`, four bits a player, each read once.
    fn most(&self, at: usize) -> u32
        requires { at < 2 ^ 32 }
        ensures { result ≡ highest (moves_at self.now.bytes.now (players_kept self.now.players) at) 0 (players_kept self.now.players) }
    {
        let mut most: u32 = 0;
        let mut ones: u32 = 0;
        let mut product: u32 = 1;
        for k in (0..self.player_count()).rev() {
            let count = u32::from(self.count(at, k + 1));
            most = most * 16 + count;
            ones = ones * 16 + 1;
            product *= count;
        }
        if product <= 4096 { most } else { ones }
    }
}

impl Game for FiledBook<'_> {
    ghost meaning = { game_in };

    ghost limits = { limits_in };

    fn players(&self) -> u8 {
        self.player_count()
    }

    fn states(&self) -> (u16, u8) {
        (self.state_count(), self.inside(self.start))
    }

    fn moves(&self, player: u8, state: u8) -> u8 {
        if 1 <= player && player <= self.player_count() && self.is_state(state) {
            digit(self.most(self.spot(state)), player - 1) as u8
        } else {
            0
        }
    }

    fn labels(&self, state: u8) -> u16 {
        if self.is_state(state) {
            self.number(self.spot(state) + 3) as u16
        } else {
            0
        }
    }

    fn next(&self, state: u8, vector: u32) -> Option<u8> {
        if !self.is_state(state) {
            return None;
        }
        let at = self.spot(state);
        let players = self.player_count();
        let most = self.most(at);
        if !is_under(players, most, vector) {
            return None;
        }
        let next = self.byte(at + 5 + usize::from(players) + place(players, most, vector) as usize);
        Some(self.inside(next))
    }
}
