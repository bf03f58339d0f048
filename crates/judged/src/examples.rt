// The examples, judged by a board.
ghost use Rattle.std.specs.Prelude.{◌≡◌, ◌<◌, ◌≤◌, [], length, map, IfOk, slice_set};
ghost use Rattle.game.specs.Structure.{Choice};
ghost use Rattle.drill.specs.Meaning.{drill as drill_of};
ghost use Rattle.binding.specs.Entries.{entry_at};
ghost use Rattle.book.specs.Described.{described};
ghost use Rattle.book.specs.Readers.{game_in};
ghost use Rattle.calls.specs.Histories.{answers};
ghost use Rattle.judged.specs.Lines.{row_of, judging_from};
ghost use Rattle.judged.specs.Drilled.{drill_lines, drill_calls as calls_of_drill, drill_answers, FollowsBook, bound_lines, bound_answers};
ghost use Rattle.judged.specs.Meeting.{meeting_bytes, meeting as meeting_content, meeting_lines, meeting_answers};
ghost use Rattle.judged.specs.Judged.{expected, JudgedExamples};

use crate::rows::table;
use binding::Binding;
use board::Board;
use book::{FiledBook, UnreadBook};
use calls::{Answer, Call, perform};
use drill::Drill;
use game::Game;
use std::alloc::{AllocError, Global};

// Three named examples and no closure: a caller asks for one by its name.
pub enum Example {
    // The drill of limit 1, and the playbook of its rule 6.
    Drill,
    // The same drill with both players bound to that playbook.
    BoundDrill,
    // The game of the meeting book.
    Meeting,
}

// The rules of the examples, each with the rounds that settle it.
static DRILL: [(Call, u8); 13] = [
    (Call::Write(0, 0, 8, 0), 1),
    (Call::Write(1, 0, 0, 0), 1),
    (Call::Write(2, 0, 0, 1), 1),
    (Call::Write(0, 0, 0, 0), 1),
    (Call::Write(1, 0, 3, 0), 1),
    (Call::Write(1, 0, 2, 0), 1),
    (Call::Write(4, 3, 2, 0), 3),
    (Call::Write(4, 1, 2, 0), 2),
    (Call::Write(4, 0, 2, 0), 2),
    (Call::Write(7, 0, 2, 0), 3),
    (Call::Write(7, 1, 2, 0), 2),
    (Call::Write(5, 1, 4, 5), 2),
    (Call::Write(5, 0, 4, 5), 4),
];

static BOUND_DRILL: [(Call, u8); 7] = [
    (Call::Write(0, 0, 8, 0), 1),
    (Call::Write(1, 0, 0, 0), 1),
    (Call::Write(2, 0, 0, 1), 1),
    (Call::Write(0, 0, 0, 0), 1),
    (Call::Write(1, 0, 3, 0), 1),
    (Call::Write(1, 0, 2, 0), 1),
    (Call::Write(4, 0, 2, 0), 3),
];

static MEETING: [(Call, u8); 3] = [
    (Call::Write(0, 0, 0, 0), 1),
    (Call::Write(3, 1, 0, 0), 1),
    (Call::Write(6, 1, 0, 0), 1),
];

// A function for each table, since each promises the rows of its own example.
fn drill_rows() -> &'static [(Call, u8)]
    ensures { result.now ≡ map row_of drill_lines }
{
    &DRILL
}

fn bound_rows() -> &'static [(Call, u8)]
    ensures { result.now ≡ map row_of bound_lines }
{
    &BOUND_DRILL
}

fn meeting_rows() -> &'static [(Call, u8)]
    ensures { result.now ≡ map row_of meeting_lines }
{
    &MEETING
}

// The book of the meeting.
pub fn meeting_book() -> &'static [u8]
    ensures { result.now ≡ meeting_bytes }
{
    b"\x01\x00\x03\x02\x02\x00\x02\x00\x08\x00\x00\x02\x02\x01\x02\x02\x01\x02\x00\x05\x00\x01\x01\x01\x01\x02\x00\x05\x00\x00\x01\x01\x02\x03\x00\x04\x00\x00\x00\x00\x03\x00\x04\x03\x01\x00\x00\x03\x00\x04\x06\x01\x00\x00"
}

// The drill of limit 1.
fn drill() -> Drill
    ensures { result.limit ≡ 1 }
{
    Drill::new(1).unwrap()
}

// Sets an entry of the drill's binding, which is a choice there.
fn bind(binding: &mut Binding<Drill>, state: u8, choice: u32)
    requires state { state < 4 }
    requires choice { Choice (drill_of 1) 3 state choice }
    requires limit { binding.old.game.limit ≡ 1 }
    requires group { binding.old.group ≡ 3 }
    ensures limit { binding.new.game.limit ≡ 1 }
    ensures group { binding.new.group ≡ 3 }
    ensures entries { binding.new.entries.choices ≡ slice_set binding.old.entries.choices state choice }
{
    let _ = binding.set(state, choice);
}

// The drill of limit 1 with both players bound to the playbook of rule 6, which are the last four answers of that example.
fn bound_drill() -> Binding<Drill>
    ensures limit { result.game.limit ≡ 1 }
    ensures group { result.group ≡ 3 }
    ensures entries { FollowsBook (entry_at result.entries.choices) }
{
    let mut binding = Binding::new(drill(), 3);
    bind(&mut binding, 0, 0x22);
    bind(&mut binding, 1, 0x22);
    bind(&mut binding, 2, 0x11);
    bind(&mut binding, 3, 0x11);
    binding
}

// The game that the book of the meeting describes.
fn meeting() -> FiledBook<'static>
    ensures { game_in result ≡ described meeting_content }
{
    let unread = UnreadBook {
        bytes: meeting_book(),
    };
    unread.read().unwrap()
}

// The table of the drill, and then the playbook of rule 6.
fn drill_calls(heap: Global) -> Result<Vec<Call>, AllocError>
    ensures { IfOk result (λ v. v.items ≡ calls_of_drill) }
{
    let mut calls = table(heap, 4, drill_rows())?;
    calls.extend((0..4).map(|state| Call::Play(6, state)))?;
    Ok(calls)
}

// What the calls answer on a new board of the game, each on what the earlier ones left.
fn answered<G: Game + Drop>(
    heap: Global,
    game: G,
    calls: &[Call],
) -> Result<Vec<Answer>, AllocError>
    ensures { IfOk result (λ v. v.items ≡ answers (G.Game.meaning game) [] 0 calls.now) }
{
    let mut board = Board::new(game);
    let mut buffer = [0u8; 0];
    let answers = perform(heap, &mut board, calls, &mut buffer);
    let _ = board.close();
    answers
}

// What a new board of the game answers to the calls that judge a table of rules.
fn judge<G: Game + Drop>(
    heap: Global,
    game: G,
    states: u8,
    rows: &[(Call, u8)],
) -> Result<Vec<Answer>, AllocError>
    requires { length rows.now ≤ 32 }
    ensures { IfOk result (λ v. v.items ≡ answers (G.Game.meaning game) [] 0 (judging_from 0 states rows.now)) }
{
    let calls = table(heap, states, rows)?;
    answered(heap, game, calls.as_slice())
}

fn judge_drill(heap: Global) -> Result<Vec<Answer>, AllocError>
    ensures { IfOk result (λ v. v.items ≡ drill_answers) }
{
    let calls = drill_calls(heap)?;
    answered(heap, drill(), calls.as_slice())
}

fn judge_bound_drill(heap: Global) -> Result<Vec<Answer>, AllocError>
    ensures { IfOk result (λ v. v.items ≡ bound_answers) }
{
    judge(heap, bound_drill(), 4, bound_rows())
}

fn judge_meeting(heap: Global) -> Result<Vec<Answer>, AllocError>
    ensures { IfOk result (λ v. v.items ≡ meeting_answers) }
{
    judge(heap, meeting(), 3, meeting_rows())
}

// What a new board of the example's game answers to the calls of the example.
pub fn judged(heap: Global, example: Example) -> Result<Vec<Answer>, AllocError>
    ensures answers { IfOk result (λ v. v.items ≡ expected example) }
    ensures examples { JudgedExamples }
{
    match example {
        Example::Drill => judge_drill(heap),
        Example::BoundDrill => judge_bound_drill(heap),
        Example::Meeting => judge_meeting(heap),
    }
}
