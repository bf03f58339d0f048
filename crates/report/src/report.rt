// The listing and the playbook of a game judged by rules.
ghost use Rattle.std.specs.Prelude.{◌≡◌, IfOk, if◌then◌else◌, nat_lt};
ghost use Rattle.book.specs.Readers.{told};
ghost use Rattle.table.specs.Answers.{nothing};
ghost use Rattle.table.specs.Shows.{Shows};
ghost use Rattle.report.specs.Judging.{judgement};
ghost use Rattle.report.specs.Printed.{Prints, declines, listed, played};
ghost use Rattle.report.specs.Right.{RightOf};
ghost use Rattle.report.specs.Steps.{Copies, Books, DeclinesStopped};

use crate::judging::Judging;
use crate::reading::refused;
use crate::types::{Report, Stopped};
use book::Rules;
use calls::{Call, perform};
use game::Game;
use listing::{Heading, listing, refused_line};
use refusal::Refusal;
use std::alloc::{AllocError, Global};

// The line of a rule that was refused.
fn declined(heap: Global, rule: usize, refusal: Refusal) -> Result<Report, AllocError>
    ensures { IfOk result (Prints (declines (rule, refusal))) }
{
    Ok(Report::Declined(refused_line(heap, rule, refusal)?))
}

// The line that says why not all rules were judged.
fn stopped(heap: Global, stopped: Stopped) -> Result<Report, AllocError>
    ensures { IfOk result (DeclinesStopped «stopped») }
{
    match stopped {
        Stopped::RefusedAt(rule, refusal) => declined(heap, rule, refusal),
        Stopped::NoMemory(error) => Err(error),
    }
}

// The listing of the game judged by the rules.
pub fn list<G: Game + Drop>(heap: Global, game: G, rules: Rules<'_>) -> Result<Report, AllocError>
    ensures listed { IfOk result (Prints (listed (G.Game.meaning game) (judgement (G.Game.meaning game) (told rules.entry)))) }
    ensures right { RightOf (G.Game.meaning game) (told rules.entry) }
{
    let players = game.players();
    let (states, start) = game.states();
    let heading = Heading {
        players,
        states,
        start,
    };
    let mut judging = Judging::new(heap, game);
    let judged = judging.rules(rules);
    let _game = judging.close();
    match judged {
        Ok(rows) => {
            let text = listing(heap, heading, rows.as_slice())?;
            Ok(Report::Listing(text))
        }
        Err(why) => stopped(heap, why),
    }
}

// The rule that a number names, where a byte holds it; no rule has the last number of a byte.
fn byte_of(rule: usize) -> u8
    ensures { result ≡ (if nat_lt rule 256 then rule else 255) }
{
    u8::try_from(rule).unwrap_or(u8::MAX)
}

impl<G: Game> Judging<G> {
    // Copies the playbook of a rule into the buffer; answers why not, if it was refused.
    fn copy(&mut self, rule: u8, buffer: &mut [u8]) -> Result<Option<Refusal>, AllocError>
        ensures { IfOk result (Copies (G.Game.meaning self.old.board.game) rule self.old.board.table buffer.old buffer.new) }
    {
        let answers = perform(self.heap, &mut self.board, &[Call::Copy(rule, 0)], buffer)?;
        Ok(refused(answers.as_slice()))
    }

    // The playbook of a rule that stands on the board.
    fn book(&mut self, rule: usize) -> Result<Report, AllocError>
        ensures { IfOk result (Books (G.Game.meaning self.old.board.game) rule self.old.board.table) }
    {
        let heap = self.heap;
        let mut buffer = vec![in heap; 0u8; usize::from(self.states) * 4]?;
        match self.copy(byte_of(rule), buffer.as_mut_slice())? {
            Some(refusal) => declined(heap, rule, refusal),
            None => Ok(Report::Playbook(buffer)),
        }
    }

    // The playbook of a rule, once all rules are judged on a board where none stands.
    fn judged_book(&mut self, rules: Rules<'_>, rule: usize) -> Result<Report, AllocError>
        requires { Shows (G.Game.meaning self.old.board.game) nothing self.old.board.table }
        ensures { IfOk result (Prints (played (G.Game.meaning self.old.board.game) rule (judgement (G.Game.meaning self.old.board.game) (told rules.entry)))) }
    {
        if let Err(why) = self.rules(rules) {
            return stopped(self.heap, why);
        }
        self.book(rule)
    }
}

// The playbook of a rule of the game judged by the rules.
pub fn playbook<G: Game + Drop>(
    heap: Global,
    game: G,
    rules: Rules<'_>,
    rule: usize,
) -> Result<Report, AllocError>
    ensures played { IfOk result (Prints (played (G.Game.meaning game) rule (judgement (G.Game.meaning game) (told rules.entry)))) }
    ensures right { RightOf (G.Game.meaning game) (told rules.entry) }
{
    let mut judging = Judging::new(heap, game);
    let report = judging.judged_book(rules, rule);
    let _game = judging.close();
    report
}
