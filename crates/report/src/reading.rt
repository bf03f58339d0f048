// What the answers to the calls that judge a rule say.
ghost use Rattle.std.specs.Prelude.{◌≡◌, IfOk};
ghost use Rattle.report.specs.Steps.{refusal_in, shown_in, rounds_in, first_refused, all_shown, last_told};

use atl::Shown;
use calls::Answer;
use refusal::Refusal;
use std::alloc::{AllocError, Global};

// Three short matches, each with a promise of its own: one function for all three would answer an enum that is matched again.
fn refusal_of(answer: Answer) -> Option<Refusal>
    ensures { result ≡ refusal_in answer }
{
    match answer {
        Answer::Refused(refusal) => Some(refusal),
        _ => None,
    }
}

fn shown_of(answer: Answer) -> Option<Shown>
    ensures { result ≡ shown_in answer }
{
    match answer {
        Answer::Says(shown) => Some(shown),
        _ => None,
    }
}

fn rounds_of(before: u16, answer: Answer) -> u16
    ensures { result ≡ rounds_in before answer }
{
    match answer {
        Answer::Told(rounds, _) => rounds,
        _ => before,
    }
}

// Why the first call was refused, if it was.
pub(crate) fn refused(answers: &[Answer]) -> Option<Refusal>
    ensures { result ≡ first_refused answers.now }
{
    answers.first().and_then(|answer| refusal_of(*answer))
}

// The marks that the answers show, in order.
pub(crate) fn marks(heap: Global, answers: &[Answer]) -> Result<Vec<Shown>, AllocError>
    ensures { IfOk result (λ v. v.items ≡ all_shown answers.now) }
{
    let mut marks = Vec::new(heap);
    for answer in answers {
        if let Some(shown) = shown_of(*answer) {
            marks.push(shown)?;
        }
    }
    Ok(marks)
}

// The rounds that the last answer to a tell tells.
pub(crate) fn rounds(answers: &[Answer]) -> u16
    ensures { result ≡ last_told 0 answers.now }
{
    let mut rounds = 0;
    for answer in answers {
        rounds = rounds_of(rounds, *answer);
    }
    rounds
}
