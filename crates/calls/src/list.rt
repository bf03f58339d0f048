// One call after another.
ghost use Rattle.std.specs.Prelude.{◌≡◌, ◌≤◌, [], length, vec_items, vec_len, vec_capacity};
ghost use Rattle.calls.specs.Histories.{answered};
ghost use Rattle.calls.specs.Performing.{DoesCall, Performs, PerformsOrLeaves};

use crate::types::{Answer, Call};
use board::Board;
use game::Game;
use refusal::Refusal;
use std::alloc::{AllocError, Global};

// What a call gives, or why the board refuses it. A copy writes into the buffer.
#[tactic(auto, using(crate::proofs::Performing::writes, crate::proofs::Performing::erases, crate::proofs::Performing::rounds, crate::proofs::Performing::asks, crate::proofs::Performing::tells, crate::proofs::Performing::plays, crate::proofs::Performing::copies))]
fn taken<G: Game>(board: &mut Board<G>, call: Call, buffer: &mut [u8]) -> Result<Answer, Refusal>
    ensures game { board.new.game ≡ board.old.game }
    ensures does { DoesCall (G.Game.meaning board.old.game) call board.old.table board.new.table buffer.old buffer.new (answered result) }
{
    match call {
        Call::Write(kind, group, r, s) => board.write(kind, group, r, s).map(Answer::Number),
        Call::Round(rule) => board.round(rule).map(Answer::Marked),
        Call::Erase => board.erase().map(Answer::Number),
        Call::Ask(rule, state) => board.ask(rule, state).map(Answer::Says),
        Call::Tell(rule) => board
            .tell(rule)
            .map(|(rounds, settled)| Answer::Told(rounds, settled)),
        Call::Play(rule, state) => board.play(rule, state).map(Answer::Choice),
        Call::Copy(rule, place) => board.copy(rule, buffer, place).map(Answer::Copied),
    }
}

// One call, answered as the board answers it. A copy writes into the buffer.
pub fn call<G: Game>(board: &mut Board<G>, call: Call, buffer: &mut [u8]) -> Answer
    ensures game { board.new.game ≡ board.old.game }
    ensures does { DoesCall (G.Game.meaning board.old.game) call board.old.table board.new.table buffer.old buffer.new result }
{
    taken(board, call, buffer).unwrap_or_else(Answer::Refused)
}

// The calls in their order, each on what the earlier ones left, with room for what each answers.
fn in_order<G: Game>(
    board: &mut Board<G>,
    calls: &[Call],
    buffer: &mut [u8],
    answers: &mut Vec<Answer>,
)
    requires none { answers.old.items ≡ [] }
    requires no_length { vec_len answers.old ≡ 0 }
    requires room { length calls.now ≤ vec_capacity answers.old }
    ensures game { board.new.game ≡ board.old.game }
    ensures performs { Performs (G.Game.meaning board.old.game) calls.now board.old.table board.new.table buffer.old buffer.new answers.new.items }
{
    for each in calls {
        let answer = call(board, *each, buffer);
        answers.push_reserved(answer);
    }
}

// Performs the calls and gives what each answered. The room for the answers is taken first, so that want of memory
// leaves board and buffer as they were.
pub fn perform<G: Game>(
    heap: Global,
    board: &mut Board<G>,
    calls: &[Call],
    buffer: &mut [u8],
) -> Result<Vec<Answer>, AllocError>
    ensures game { board.new.game ≡ board.old.game }
    ensures performs { PerformsOrLeaves vec_items (G.Game.meaning board.old.game) calls.now board.old.table board.new.table buffer.old buffer.new result }
{
    let mut answers = Vec::with_capacity(heap, calls.len())?;
    in_order(board, calls, buffer, &mut answers);
    Ok(answers)
}
