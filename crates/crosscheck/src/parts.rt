// The parts of the comparison, each over drills and books.
use crate::answers::compare_answers;
use crate::bench::examine;
use crate::bindings::bind_all;
use crate::content::{Content, Plan, Size};
use crate::entries::enter_all;
use crate::faults::{Bad, Flaw, compare_beginnings, compare_changes, expect_fault};
use crate::luck::Luck;
use crate::rules::{any_rules, deep, everybody, four_groups, nested};
use crate::tally::{Notes, Tally, add};
use crate::trial::Trial;
use crate::walks::walk_on;
use crate::words::Rule;
use book::{FiledBook, UnreadBook};
use drill::Drill;
use game::Game;
use std::alloc::{AllocError, Global};

// What is done with a game, of which rules speak by two labels.
pub trait Task {
    fn on_game<G: Game + Drop>(
        &self,
        trial: &mut Trial<'_>,
        name: &str,
        game: G,
        labels: (u8, u8),
    ) -> Result<(), AllocError>;

    // What is done with a book before, if it is the game.
    fn on_book(
        &self,
        _notes: &mut Notes<'_>,
        _filed: &FiledBook<'_>,
        _content: &Content,
    ) -> Result<(), AllocError> {
        Ok(())
    }
}

// Both judges, by all kinds for every group and by rules of rules.
pub struct Judging;

// Both judges by rules that may take many rounds.
pub struct Deep;

// Both judges on bindings to playbooks.
pub struct Bindings;

// Calls at random.
pub struct Calls;

// Entries of bindings.
pub struct Entries;

// Rules in place of the last ones of a full board.
fn others(heap: Global, luck: &mut Luck, all: u8) -> Result<Vec<Rule>, AllocError> {
    let many = luck.below(20) as usize;
    let mut others = Vec::new(heap);
    any_rules(luck, &mut others, all, 32usize.saturating_sub(many)..32)?;
    Ok(others)
}

impl Task for Judging {
    // Boards of 32 rules: plain ones, all kinds for four groups, and rules of any rules. A large game has not every group tried.
    fn on_game<G: Game + Drop>(
        &self,
        trial: &mut Trial<'_>,
        name: &str,
        game: G,
        labels: (u8, u8),
    ) -> Result<(), AllocError> {
        let heap = trial.tally.heap;
        let all = everybody(game.players());
        let (states, _) = game.states();
        let mut game = game;
        for k in 0..16u8 {
            let from = 4 * k;
            if from <= all && (states < 100 || k % 6 == 0) {
                let mut rules = four_groups(heap, &mut trial.luck, labels, from, all)?;
                nested(&mut trial.luck, &mut rules, all, 32)?;
                let others = others(heap, &mut trial.luck, all)?;
                let (back, _) = examine(trial.tally.notes(name), game, &rules, &others)?;
                game = back;
            }
        }
        add(&mut trial.tally.compared.games, 1);
        Ok(())
    }

    fn on_book(
        &self,
        notes: &mut Notes<'_>,
        filed: &FiledBook<'_>,
        content: &Content,
    ) -> Result<(), AllocError> {
        compare_answers(notes, filed, content)
    }
}

impl Task for Deep {
    fn on_game<G: Game + Drop>(
        &self,
        trial: &mut Trial<'_>,
        name: &str,
        game: G,
        labels: (u8, u8),
    ) -> Result<(), AllocError> {
        let rules = deep(trial.tally.heap, labels)?;
        examine(trial.tally.notes(name), game, &rules, &[])?;
        Ok(())
    }
}

impl Task for Bindings {
    fn on_game<G: Game + Drop>(
        &self,
        trial: &mut Trial<'_>,
        name: &str,
        game: G,
        labels: (u8, u8),
    ) -> Result<(), AllocError> {
        let all = everybody(game.players());
        let from = trial.luck.byte(u32::from(all).saturating_add(1)) / 4 * 4;
        let rules = four_groups(trial.tally.heap, &mut trial.luck, labels, from, all)?;
        bind_all(trial, name, game, &rules)?;
        Ok(())
    }
}

impl Task for Calls {
    fn on_game<G: Game + Drop>(
        &self,
        trial: &mut Trial<'_>,
        name: &str,
        game: G,
        _labels: (u8, u8),
    ) -> Result<(), AllocError> {
        walk_on(trial, name, game)
    }
}

impl Task for Entries {
    fn on_game<G: Game + Drop>(
        &self,
        trial: &mut Trial<'_>,
        name: &str,
        game: G,
        _labels: (u8, u8),
    ) -> Result<(), AllocError> {
        enter_all(&mut trial.tally.notes(name), game)
    }
}

// Does the task with the drill of the limit.
pub fn on_drill<T: Task>(tally: &mut Tally, limit: u8, task: &T) -> Result<(), AllocError> {
    let name = format!(in tally.heap; "drill {limit}")?;
    let luck = Luck::new(u64::from(limit));
    let mut trial = Trial { tally, luck };
    match Drill::new(limit) {
        Ok(drill) => task.on_game(&mut trial, &name, drill, (8, 0)),
        Err(_) => trial.tally.notes(&name).differs("there is none"),
    }
}

// Reads the book, and does the task with it.
fn on_content<T: Task>(
    trial: &mut Trial<'_>,
    name: &str,
    content: &Content,
    task: &T,
) -> Result<(), AllocError> {
    let bytes = content.bytes(trial.tally.heap)?;
    let unread = UnreadBook { bytes: &bytes };
    let Ok(filed) = unread.read() else {
        return trial.tally.notes(name).differs("the book is refused");
    };
    task.on_book(&mut trial.tally.notes(name), &filed, content)?;
    let labels = (trial.luck.byte(4), trial.luck.byte(16));
    task.on_game(trial, name, filed, labels)
}

fn content_of(heap: Global, luck: &mut Luck, plan: Plan) -> Result<Content, AllocError> {
    let mut content = Content::any(heap, luck, plan)?;
    let many = luck.below(33) as usize;
    nested(luck, &mut content.rules, 63, many)?;
    Ok(content)
}

// Does the task with the book of the seed.
pub fn on_book<T: Task>(
    tally: &mut Tally,
    seed: u64,
    size: Size,
    task: &T,
) -> Result<(), AllocError> {
    let name = format!(in tally.heap; "book {seed}")?;
    let mut luck = Luck::new(seed);
    let plan = Plan::of(&mut luck, size);
    let content = content_of(tally.heap, &mut luck, plan)?;
    let mut trial = Trial { tally, luck };
    on_content(&mut trial, &name, &content, task)
}

// Judges the book of three states with 4,096 vectors each.
pub fn on_crowded(tally: &mut Tally) -> Result<(), AllocError> {
    let mut luck = Luck::new(4096);
    let content = Content::crowded(tally.heap, &mut luck, 4)?;
    let mut trial = Trial { tally, luck };
    on_content(&mut trial, "crowded book", &content, &Judging)
}

fn bad(flaw: Flaw, byte: usize) -> Result<(), Bad> {
    Err(Bad { flaw, byte })
}

// Faults of books at the edges of what a book may be.
fn edge_faults(tally: &mut Tally) -> Result<(), AllocError> {
    let heap = tally.heap;
    let mut luck = Luck::new(19);
    expect_fault(&mut tally.notes("empty book"), &[], bad(Flaw::NoField, 0))?;
    for (first, due) in [
        (4u8, Ok(())),
        (5, bad(Flaw::Value, 11)),
        (15, bad(Flaw::Value, 11)),
        (16, bad(Flaw::Value, 11)),
        (0, bad(Flaw::Value, 11)),
    ] {
        let bytes = Content::crowded(heap, &mut luck, first)?.bytes(heap)?;
        expect_fault(&mut tally.notes("crowded book"), &bytes, due)?;
    }
    for (len, due) in [
        (65533usize, bad(Flaw::CutField, 65528)),
        (65534, bad(Flaw::CutField, 65528)),
        (65535, Ok(())),
        (65536, bad(Flaw::BookLength, 0)),
    ] {
        let bytes = long_book(heap, len)?;
        expect_fault(&mut tally.notes("long book"), &bytes, due)?;
    }
    Ok(())
}

// A book of one state and then rules, with so many bytes.
fn long_book(heap: Global, len: usize) -> Result<Vec<u8>, AllocError> {
    let mut bytes = Vec::new(heap);
    bytes.extend_from_slice(b"\x01\0\x03\x01\0\0\x02\0\x06\0\0\x03\0\0\0")?;
    bytes.extend(b"\x03\0\x04\0\0\0\0".iter().cycle().take(65536))?;
    bytes.truncate(len);
    Ok(bytes)
}

// Faults of books made by luck: of each beginning, and with each byte changed.
fn lucky_faults(tally: &mut Tally, seed: u64) -> Result<(), AllocError> {
    let heap = tally.heap;
    let name = format!(in heap; "book {seed}")?;
    let mut luck = Luck::new(seed);
    let plan = Plan {
        players: luck.byte(6).saturating_add(1),
        states: u16::from(luck.byte(6)) + 1,
        most: 24,
        near: false,
    };
    let mut content = Content::any(heap, &mut luck, plan)?;
    nested(&mut luck, &mut content.rules, 63, 3)?;
    let bytes = content.bytes(heap)?;
    let mut notes = tally.notes(&name);
    compare_beginnings(&mut notes, &bytes)?;
    compare_changes(&mut notes, &bytes)
}

// The reader's faults, compared with those of a walk over the bytes.
pub fn faults(tally: &mut Tally, books: u64) -> Result<(), AllocError> {
    edge_faults(tally)?;
    for seed in 0..books {
        lucky_faults(tally, seed)?;
    }
    Ok(())
}
