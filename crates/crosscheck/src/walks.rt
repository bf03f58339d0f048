// Calls at random, good and bad, put to both judges.
use crate::bench::Bench;
use crate::luck::Luck;
use crate::rules::{any_rule, everybody, nested};
use crate::second::Second;
use crate::tally::add;
use crate::trial::Trial;
use crate::words::{Call, Rule};
use game::Game;
use std::alloc::AllocError;

// What is to be a rule, and may be refused for any reason.
fn wild_rule(luck: &mut Luck, all: u8, standing: usize) -> Call {
    let below = u32::try_from(standing).unwrap_or(0).saturating_add(2);
    let kind = luck.byte(10);
    let group = if luck.often(16) {
        0
    } else {
        luck.byte(u32::from(all).saturating_add(3))
    };
    let r = if luck.often(4) {
        luck.byte(18)
    } else {
        luck.byte(below)
    };
    let s = if luck.often(16) { 0 } else { luck.byte(below) };
    Call::Write([kind, group, r, s])
}

fn any_call(luck: &mut Luck, second: &Second) -> Call {
    let all = everybody(second.layout.players);
    let standing = second.standing.len();
    let rule = luck.byte(u32::try_from(standing).unwrap_or(0).saturating_add(1));
    let state = luck.byte(u32::from(second.layout.states).saturating_add(1));
    match luck.below(20) {
        0..=2 => wild_rule(luck, all, standing),
        3..=5 => Call::from(any_rule(luck, all, standing)),
        6..=7 => Call::Erase,
        8..=13 => Call::Round(rule),
        14 => Call::Tell(rule),
        15 => Call::Ask(rule, state),
        16..=17 => Call::Play(rule, state),
        _ => Call::Copy(rule, luck.below(10) as usize),
    }
}

// So many calls, on a board that starts with so many rules.
fn walk<G: Game + Drop>(
    bench: &mut Bench<'_, G>,
    luck: &mut Luck,
    rules: &[Rule],
) -> Result<(), AllocError> {
    for rule in rules {
        bench.careful(Call::from(*rule), 0)?;
    }
    let room = 4 * bench.second.layout.states as usize + 5;
    for _ in 0..200 {
        let call = any_call(luck, &bench.second);
        let len = if let Call::Copy(_, _) = call { room } else { 0 };
        bench.careful(call, len)?;
    }
    Ok(())
}

// Puts calls at random to both judges of the game.
pub fn walk_on<G: Game + Drop>(
    trial: &mut Trial<'_>,
    name: &str,
    game: G,
) -> Result<(), AllocError> {
    let mut rules = Vec::new(trial.tally.heap);
    let many = trial.luck.below(33) as usize;
    nested(&mut trial.luck, &mut rules, everybody(game.players()), many)?;
    let mut bench = Bench::open(trial.tally.notes(name), game)?;
    let done = walk(&mut bench, &mut trial.luck, &rules);
    bench.close();
    add(&mut trial.tally.compared.games, 1);
    done
}
