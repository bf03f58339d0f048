// The board: a game with the table of its rules.
#![tactic(auto)]

ghost use Rattle.std.specs.Prelude.{◌≡◌, ℕ, length};
ghost use Rattle.table.specs.Answers.{nothing, write_answer, write_after, erase_answer, erase_after, round_answer, round_after, ask_answer, tell_answer, play_answer, copy_answer};
ghost use Rattle.table.specs.Books.{Buffered, KeptIfRefused};
ghost use Rattle.board.specs.Truth.{TrueOf};
ghost use Rattle.table.specs.Shows.{Shows, Does, Answers, FewRounds};

use atl::Shown;
use game::Game;
use refusal::Refusal;
use table::Table;

// A game and the table of the rules that stand on it. The board owns its game until it is closed.
pub struct Board<G> {
    game: G,
    table: Table,
}

impl<G: Game> Board<G> {
    // A board on which no rule stands.
    pub fn new(game: G) -> Board<G>
        ensures game { result.game ≡ game }
        ensures shows { Shows (G.Game.meaning game) nothing result.table }
    {
        Board {
            game,
            table: Table::empty(),
        }
    }

    // Ends the board and gives its game back.
    pub fn close(self) -> G
        ensures { result ≡ self.game }
    {
        let Board { game, table: _ } = self;
        game
    }

    // Writes a rule and answers its number. It takes plain numbers, since any four are answered, most by a refusal.
    pub fn write(&mut self, kind: u8, group: u8, r: u8, s: u8) -> Result<u8, Refusal>
        ensures game { self.new.game ≡ self.old.game }
        ensures does { Does (G.Game.meaning self.old.game) (write_answer (G.Game.meaning self.old.game) kind group r s) (write_after (G.Game.meaning self.old.game) kind group r s) self.old.table self.new.table result }
    {
        self.table.write(&self.game, kind, group, r, s)
    }

    // Takes the highest rule away and answers its number.
    pub fn erase(&mut self) -> Result<u8, Refusal>
        ensures game { self.new.game ≡ self.old.game }
        ensures does { Does (G.Game.meaning self.old.game) erase_answer erase_after self.old.table self.new.table result }
    {
        self.table.erase()
    }

    // One more round of a rule; answers how many states it marked, those of number 256 not counted.
    pub fn round(&mut self, rule: u8) -> Result<u16, Refusal>
        ensures game { self.new.game ≡ self.old.game }
        ensures does { Does (G.Game.meaning self.old.game) (round_answer (G.Game.meaning self.old.game) rule) (round_after (G.Game.meaning self.old.game) rule) self.old.table self.new.table result }
    {
        self.table.round(&self.game, rule)
    }

    // What a rule says of a state: the verdict, and its number.
    pub fn ask(&self, rule: u8, state: u8) -> Result<Shown, Refusal>
        ensures answer { Answers (G.Game.meaning self.now.game) (ask_answer (G.Game.meaning self.now.game) rule state) self.now.table result }
        ensures truth { TrueOf (G.Game.meaning self.now.game) self.now.table rule }
    {
        self.table.ask(&self.game, rule, state)
    }

    // The rounds that a rule has had, told of any rule, and whether it is settled.
    pub fn tell(&self, rule: u8) -> Result<(u16, bool), Refusal>
        ensures answer { Answers (G.Game.meaning self.now.game) (tell_answer (G.Game.meaning self.now.game) rule) self.now.table result }
        ensures few { FewRounds (G.Game.meaning self.now.game) self.now.table result }
    {
        self.table.tell(rule)
    }

    // The choice of a settled can-rule's playbook at a state.
    pub fn play(&self, rule: u8, state: u8) -> Result<u32, Refusal>
        ensures answer { Answers (G.Game.meaning self.now.game) (play_answer (G.Game.meaning self.now.game) rule state) self.now.table result }
        ensures truth { TrueOf (G.Game.meaning self.now.game) self.now.table rule }
    {
        self.table.play(&self.game, rule, state)
    }

    // Writes a playbook into the buffer from the place on, four bytes a state, and answers how many bytes these are.
    pub fn copy(&self, rule: u8, buffer: &mut [u8], place: usize) -> Result<usize, Refusal>
        ensures answer { Answers (G.Game.meaning self.now.game) (copy_answer (G.Game.meaning self.now.game) rule place (length buffer.old)) self.now.table result }
        ensures buffer { Buffered (G.Game.meaning self.now.game) self.now.table rule place buffer.old buffer.new }
        ensures refused { KeptIfRefused result buffer.old buffer.new }
        ensures truth { TrueOf (G.Game.meaning self.now.game) self.now.table rule }
    {
        self.table.copy(&self.game, rule, buffer, place)
    }
}
