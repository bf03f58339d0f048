// Games in which a group is bound to a playbook.
use crate::bench::examine;
use crate::judged::Judged;
use crate::luck::Luck;
use crate::rules::{PLAIN, everybody, grouped, nested};
use crate::second::Standing;
use crate::tally::{Notes, add};
use crate::trial::Trial;
use crate::words::{Goal, Kind, Rule};
use binding::Binding;
use game::Game;
use std::alloc::{AllocError, Global};

fn is_bindable(rule: Rule) -> bool {
    rule.is_playable() && rule.r < PLAIN && rule.s < PLAIN
}

// The rules for a binding: the same plain ones, the rule for nobody, the six kinds for some group, and others.
fn rules_above(
    heap: Global,
    luck: &mut Luck,
    below: &[Standing],
    rule: Rule,
    all: u8,
) -> Result<Vec<Rule>, AllocError> {
    let plain = below.iter().take(PLAIN as usize);
    let mut rules: Vec<Rule> = plain.map(|standing| standing.rule).collect(heap)?;
    rules.push(Rule { group: 0, ..rule })?;
    let group = luck.byte(u32::from(all).saturating_add(1));
    grouped(luck, &mut rules, group)?;
    nested(luck, &mut rules, all, 15)?;
    Ok(rules)
}

// The verdicts are the same, and an until's steps.
fn agrees(kind: Kind, free: &Judged, held: &Judged) -> bool {
    if kind == Kind::Can(Goal::Until) {
        return free.marks == held.marks;
    }
    let free = free.marks.iter().map(|mark| mark.yes);
    free.eq(held.marks.iter().map(|mark| mark.yes))
}

// Lays a binding of the rule's group to its playbook over the game.
fn bound<G: Game + Drop>(
    notes: &mut Notes<'_>,
    game: G,
    free: &Standing,
) -> Result<Binding<G>, AllocError> {
    let mut binding = Binding::new(game, free.rule.group);
    let playbook = free.judged.playbook.iter().flatten();
    for (state, choice) in (0..=u8::MAX).zip(playbook) {
        let set = binding.set(state, *choice).is_ok();
        notes.demand(set, "an entry from a playbook is refused")?;
    }
    Ok(binding)
}

// Compares both judges on the binding, and what nobody can there with what the group could.
fn examine_bound<G: Game + Drop>(
    trial: &mut Trial<'_>,
    name: &str,
    game: G,
    below: &[Standing],
    free: &Standing,
) -> Result<(Binding<G>, Vec<Standing>), AllocError> {
    let all = everybody(game.players());
    let rules = rules_above(trial.tally.heap, &mut trial.luck, below, free.rule, all)?;
    let binding = bound(&mut trial.tally.notes(name), game, free)?;
    let (binding, above) = examine(trial.tally.notes(name), binding, &rules, &[])?;
    let same = above
        .get(PLAIN as usize)
        .is_some_and(|held| agrees(free.rule.kind, &free.judged, &held.judged));
    trial.tally.notes(name).demand(
        same,
        "nobody's verdicts are not those of the group that is bound",
    )?;
    add(&mut trial.tally.compared.bound, free.judged.marks.len());
    add(&mut trial.tally.compared.games, 1);
    Ok((binding, above))
}

// A binding of the rule's group, and over it bindings for the rules of some group there.
fn bind_twice<G: Game + Drop>(
    trial: &mut Trial<'_>,
    name: &str,
    game: G,
    below: &[Standing],
    free: &Standing,
) -> Result<G, AllocError> {
    let heap = trial.tally.heap;
    let rule = free.rule;
    let once = format!(in heap; "binding to {rule} over {name}")?;
    let (mut binding, above) = examine_bound(trial, &once, game, below, free)?;
    for next in above.iter().skip(PLAIN as usize + 1) {
        if is_bindable(next.rule) && trial.luck.often(10) {
            let rule = next.rule;
            let twice = format!(in heap; "binding to {rule} over {once}")?;
            let (over, _) = examine_bound(trial, &twice, binding, &above, next)?;
            binding = over.close();
        }
    }
    Ok(binding.close())
}

// Judges the game, and then binds the group of each rule that has a playbook and plain parts.
pub fn bind_all<G: Game + Drop>(
    trial: &mut Trial<'_>,
    name: &str,
    game: G,
    rules: &[Rule],
) -> Result<G, AllocError> {
    let (mut game, standing) = examine(trial.tally.notes(name), game, rules, &[])?;
    for free in standing.iter().skip(PLAIN as usize) {
        if is_bindable(free.rule) {
            game = bind_twice(trial, name, game, &standing, free)?;
        }
    }
    Ok(game)
}
