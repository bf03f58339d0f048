// The listing of a judged game as text.
#![tactic(auto)]

ghost use Rattle.std.specs.Prelude.{◌≡◌, cond, List, ◌++◌, length, Some, is_ok, IfOk, string_bytes, codes};
ghost use Rattle.refusal.specs.Numbers.{number_of};
ghost use Rattle.book.specs.Faults.{number_of as cause_number, word_of};
ghost use Rattle.listing.specs.Text.{letter as letter_of, number_text, mark_text, marks_text, rule_text, game_text, refused_text, no_game_text, fault_text, listing_text};

use atl::{Shown, Verdict};
use book::Fault;
use refusal::Refusal;
use std::alloc::{AllocError, Global};
use std::fmt;
use std::fmt::{Display, Formatter, Write};

// The letter of a verdict: a function, since a wrapper with a `Display` of its own would be longer than the match.
fn letter(verdict: Verdict) -> &'static str
    ensures { result.now ≡ letter_of verdict }
{
    match verdict {
        Verdict::Open => "o",
        Verdict::Yes => "y",
        Verdict::No => "n",
    }
}

// What the listing shows of a rule.
#[derive(Drop)]
pub struct Row {
    pub rounds: u16,
    pub marks: Vec<Shown>,
}

// The numbers of the first line, of any game: no limits are kept here, as a book's heading keeps them.
#[derive(Clone, Copy)]
pub struct Heading {
    pub players: u8,
    pub states: u16,
    pub start: u8,
}

// The first line: players, states and start.
pub fn game_line(heap: Global, heading: Heading) -> Result<String, AllocError>
    ensures { IfOk result (λ s. string_bytes s ≡ game_text heading.players heading.states heading.start) }
{
    let Heading {
        players,
        states,
        start,
    } = heading;
    format!(in heap; "game {players} {states} {start}\n")
}

// A mark as the listing shows it.
#[derive(Clone, Copy)]
struct Mark(Shown);

impl Display for Mark {
    ghost output = { λ mark. Some (mark_text mark.0) };

    fn fmt<W: Write>(&self, f: &mut Formatter<W>) -> fmt::Result {
        let verdict = letter(self.0.verdict);
        let number = self.0.number;
        if number == 256 {
            write!(f, "{verdict}-")
        } else {
            write!(f, "{verdict}{number}")
        }
    }
}

// The line of a rule: its number, its rounds and its marks.
pub fn rule_line(
    heap: Global,
    rule: usize,
    rounds: u16,
    marks: &[Shown],
) -> Result<String, AllocError>
    ensures { IfOk result (λ s. string_bytes s ≡ rule_text rule rounds marks.now) }
{
    let mut line = format!(in heap; "{rule} {rounds}")?;
    for shown in marks {
        let mark = Mark(*shown);
        write!(line, " {mark}")?;
    }
    line.push_str("\n")?;
    Ok(line)
}

// The line of a rule that was refused.
pub fn refused_line(heap: Global, rule: usize, refusal: Refusal) -> Result<String, AllocError>
    ensures { IfOk result (λ s. string_bytes s ≡ refused_text rule (number_of refusal)) }
{
    let number = u8::from(refusal);
    format!(in heap; "refused {rule} {number}\n")
}

// The line of a game that was refused.
pub fn no_game_line(heap: Global, refusal: Refusal) -> Result<String, AllocError>
    ensures { IfOk result (λ s. string_bytes s ≡ no_game_text (number_of refusal)) }
{
    let number = u8::from(refusal);
    format!(in heap; "refused {number}\n")
}

// The line of a faulty book.
pub fn fault_line(heap: Global, fault: Fault) -> Result<String, AllocError>
    ensures { IfOk result (λ s. string_bytes s ≡ fault_text (cause_number fault.cause) fault.byte (word_of fault.layer)) }
{
    let cause = u8::from(fault.cause);
    let byte = fault.byte;
    let layer = fault.layer.word();
    format!(in heap; "fault {cause} {byte} {layer}\n")
}

// The whole listing: the game, then a line for each rule, counted from 0.
pub fn listing(heap: Global, heading: Heading, rows: &[Row]) -> Result<String, AllocError>
    ensures { IfOk result (λ s. string_bytes s ≡ listing_text heading.players heading.states heading.start rows.now) }
{
    let mut text = game_line(heap, heading)?;
    for (rule, row) in rows.iter().enumerate() {
        let line = rule_line(heap, rule, row.rounds, row.marks.as_slice())?;
        text.push_str(line.as_str())?;
    }
    Ok(text)
}
