// Two judges compared: the one of the board, which goes by rounds, and one written apart, which goes from the targets backwards. What differs is told,
// and the program then ends with an error.
#![tactic(auto)]

mod answers;
mod bench;
mod bindings;
mod content;
mod division;
mod edges;
mod entries;
mod faults;
mod first;
mod flood;
mod judged;
mod layout;
mod luck;
mod parts;
mod places;
mod rules;
mod runs;
mod second;
mod tally;
mod trial;
mod walks;
mod words;

use anyhow::anyhow;
use content::Size;
use edges::{limits, refusals};
use parts::{Bindings, Calls, Deep, Entries, Judging, faults, on_book, on_crowded, on_drill};
use std::alloc::AllocError;
use tally::Tally;

// Both judges on drills and books.
fn judged_games(tally: &mut Tally) -> Result<(), AllocError> {
    for limit in [1u8, 2, 7, 60, 253] {
        on_drill(tally, limit, &Judging)?;
        on_drill(tally, limit, &Deep)?;
    }
    tally.part("drills")?;
    for seed in 0..120 {
        on_book(tally, seed, Size::Any, &Judging)?;
    }
    tally.part("books")?;
    on_crowded(tally)?;
    tally.part("crowded book")
}

// Both judges on bindings, and what bindings take for entries.
fn bindings_too(tally: &mut Tally) -> Result<(), AllocError> {
    for limit in [1u8, 2, 7, 60] {
        on_drill(tally, limit, &Bindings)?;
    }
    for seed in 200..240 {
        on_book(tally, seed, Size::Any, &Bindings)?;
    }
    tally.part("bindings")?;
    on_drill(tally, 1, &Entries)?;
    for seed in 300..310 {
        on_book(tally, seed, Size::Small, &Entries)?;
    }
    tally.part("entries")
}

// Calls, good and bad.
fn calls_made(tally: &mut Tally) -> Result<(), AllocError> {
    for limit in 1..6u8 {
        on_drill(tally, limit, &Calls)?;
    }
    for seed in 400..440 {
        on_book(tally, seed, Size::Small, &Calls)?;
    }
    tally.part("lists of calls")?;
    refusals(tally)?;
    tally.part("refusals in order")?;
    limits(tally)?;
    tally.part("limits of drills")?;
    faults(tally, 12)?;
    tally.part("faults")
}

fn compare(tally: &mut Tally) -> Result<(), AllocError> {
    judged_games(tally)?;
    bindings_too(tally)?;
    calls_made(tally)?;
    tally.given_all()
}

fn main(rt: HostRuntime) -> anyhow::Result<()> {
    let mut tally = Tally::new(rt.alloc());
    compare(&mut tally)?;
    for line in &tally.lines {
        rt.println(line)?;
    }
    let differ = tally.differ;
    if differ > 0 {
        println!(rt; "DIFFER {differ}")?;
        return Err(anyhow!("the judges differ"));
    }
    rt.println("all agree")?;
    Ok(())
}
