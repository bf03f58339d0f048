// Judging the rules one after another on a board.
ghost use Rattle.std.specs.Prelude.{◌≡◌, ◌≤◌};
ghost use Rattle.table.specs.Answers.{nothing};
ghost use Rattle.table.specs.Shows.{Shows};
ghost use Rattle.book.specs.Readers.{told};
ghost use Rattle.report.specs.Steps.{JudgesRule, AllJudged};

use crate::reading::{marks, refused, rounds};
use crate::script::script;
use crate::types::Stopped;
use board::Board;
use book::{RuleField, Rules};
use calls::perform;
use game::Game;
use listing::Row;
use std::alloc::Global;

// A board on which rules are judged, and how many states its game has.
pub(crate) struct Judging<G: Game> {
    pub(crate) heap: Global,
    pub(crate) board: Board<G>,
    pub(crate) states: u16,
    ghost ok: { states ≡ (G.Game.meaning board.game).states },
}

impl<G: Game> Judging<G> {
    // A new board of the game.
    pub(crate) fn new(heap: Global, game: G) -> Judging<G>
        ensures game { result.board.game ≡ game }
        ensures empty { Shows (G.Game.meaning game) nothing result.board.table }
    {
        let (states, _) = game.states();
        let board = Board::new(game);
        Judging {
            heap,
            board,
            states,
        }
    }

    // Ends the board and gives its game back.
    pub(crate) fn close(self) -> G
        ensures { result ≡ self.board.game }
    {
        let Judging {
            heap: _,
            board,
            states: _,
        } = self;
        board.close()
    }

    // Judges one rule, under its number: what the listing shows of it.
    #[tactic(auto, using(crate::proofs::Rows::no_memory_rule))]
    fn rule(&mut self, rule: u8, field: RuleField) -> Result<Row, Stopped>
        ensures game { self.new.board.game ≡ self.old.board.game }
        ensures judges { JudgesRule (G.Game.meaning self.old.board.game) field rule self.old.board.table self.new.board.table result }
    {
        let calls = script(self.heap, self.states, rule, field)?;
        let answers = perform(self.heap, &mut self.board, calls.as_slice(), &mut [])?;
        if let Some(refusal) = refused(answers.as_slice()) {
            return Err(Stopped::RefusedAt(rule as usize, refusal));
        }
        let marks = marks(self.heap, answers.as_slice())?;
        let rounds = rounds(answers.as_slice());
        Ok(Row { rounds, marks })
    }

    // Judges all rules in order on a board where none stands.
    #[tactic(auto, using(crate::proofs::Rows::no_memory_all))]
    pub(crate) fn rules(&mut self, rules: Rules<'_>) -> Result<Vec<Row>, Stopped>
        requires { Shows (G.Game.meaning self.old.board.game) nothing self.old.board.table }
        ensures game { self.new.board.game ≡ self.old.board.game }
        ensures judged { AllJudged (G.Game.meaning self.old.board.game) (told rules.entry) self.new.board.table result }
    {
        let mut rows = Vec::new(self.heap);
        for (rule, field) in rules.iter().enumerate() {
            let row = self.rule(rule as u8, field)?;
            rows.push(row)?;
        }
        Ok(rows)
    }
}
