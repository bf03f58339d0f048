// The first judge's answers, in the same words.
use crate::words::{Call, NONE, Said};
use atl::{Shown, Verdict};
use board::Board;
use game::Game;
use refusal::Refusal;

fn shown(answer: Shown) -> Said {
    let number = (answer.number != NONE).then_some(answer.number);
    match answer.verdict {
        Verdict::Open => Said::Open(number),
        Verdict::Yes => Said::Yes(number),
        Verdict::No => Said::No(number),
    }
}

fn taken<G: Game>(board: &mut Board<G>, call: Call, buffer: &mut [u8]) -> Result<Said, Refusal> {
    Ok(match call {
        Call::Write(numbers) => {
            let [kind, group, r, s] = numbers;
            Said::Number(board.write(kind, group, r, s)?)
        }
        Call::Erase => Said::Number(board.erase()?),
        Call::Round(rule) => Said::Marked(board.round(rule)?),
        Call::Ask(rule, state) => shown(board.ask(rule, state)?),
        Call::Tell(rule) => {
            let (rounds, settled) = board.tell(rule)?;
            Said::Told(rounds, settled)
        }
        Call::Play(rule, state) => Said::Choice(board.play(rule, state)?),
        Call::Copy(rule, place) => Said::Copied(board.copy(rule, buffer, place)?),
    })
}

// The board's answer to a call. A copy writes into the buffer.
pub fn answer<G: Game>(board: &mut Board<G>, call: Call, buffer: &mut [u8]) -> Said {
    taken(board, call, buffer).unwrap_or_else(|refusal| Said::Refused(u8::from(refusal)))
}
