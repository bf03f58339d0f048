// Rules to judge games by.
use crate::luck::Luck;
use crate::words::{Goal, Kind, Rule};
use std::alloc::{AllocError, Global};
use std::ops::Range;

// How many rules come first: two labels and what is made of them.
pub const PLAIN: u8 = 5;

// The group of all players.
pub fn everybody(players: u8) -> u8 {
    (0..players).fold(0u8, |group, _| group.wrapping_mul(2).wrapping_add(1))
}

// Two labels, not the first, always, and not the second.
pub fn plain(heap: Global, labels: (u8, u8)) -> Result<Vec<Rule>, AllocError> {
    let (first, second) = labels;
    let rules = [
        (Kind::Label, first, 0),
        (Kind::Label, second, 0),
        (Kind::Not, 0, 0),
        (Kind::Or, 0, 2),
        (Kind::Not, 1, 0),
    ];
    let plain = rules.map(|(kind, r, s)| Rule {
        kind,
        group: 0,
        r,
        s,
    });
    plain.to_vec(heap)
}

// The six kinds that have a group, for this group, with plain parts.
pub fn grouped(luck: &mut Luck, rules: &mut Vec<Rule>, group: u8) -> Result<(), AllocError> {
    for kind in Kind::ALL.iter().skip(3) {
        rules.push(Rule {
            kind: *kind,
            group,
            r: luck.byte(u32::from(PLAIN)),
            s: if kind.parts() == 2 {
                luck.byte(u32::from(PLAIN))
            } else {
                0
            },
        })?;
    }
    Ok(())
}

// The plain rules, and the six kinds for four groups from this one on.
pub fn four_groups(
    heap: Global,
    luck: &mut Luck,
    labels: (u8, u8),
    from: u8,
    all: u8,
) -> Result<Vec<Rule>, AllocError> {
    let mut rules = plain(heap, labels)?;
    for group in (from..=all).take(4) {
        grouped(luck, &mut rules, group)?;
    }
    Ok(rules)
}

// The plain rules, and for the first four groups the kinds that may take many rounds: always until the second label, and unless the first without the second.
pub fn deep(heap: Global, labels: (u8, u8)) -> Result<Vec<Rule>, AllocError> {
    let mut rules = plain(heap, labels)?;
    for group in 0..4u8 {
        let deep = [
            (Kind::Can(Goal::Until), 3, 1),
            (Kind::Can(Goal::Unless), 4, 0),
            (Kind::CannotHelp(Goal::Until), 3, 1),
            (Kind::CannotHelp(Goal::Unless), 4, 0),
        ];
        rules.extend(deep.map(|(kind, r, s)| Rule { kind, group, r, s }))?;
    }
    Ok(rules)
}

// A rule of any kind that can be written where so many stand.
pub fn any_rule(luck: &mut Luck, all: u8, standing: usize) -> Rule {
    let below = u32::try_from(standing).unwrap_or(0);
    let number = if below == 0 { 0 } else { luck.byte(9) };
    let kind = Kind::try_from(number).unwrap_or(Kind::Label);
    let group = match kind {
        Kind::Label | Kind::Not | Kind::Or => 0,
        Kind::Can(_) | Kind::CannotHelp(_) => luck.byte(u32::from(all).saturating_add(1)),
    };
    Rule {
        kind,
        group,
        r: luck.byte(if kind == Kind::Label { 16 } else { below }),
        s: if kind.parts() == 2 {
            luck.byte(below)
        } else {
            0
        },
    }
}

// Adds a rule of any kind for each number of rules that stand, one that can then be written.
pub fn any_rules(
    luck: &mut Luck,
    rules: &mut Vec<Rule>,
    all: u8,
    standing: Range<usize>,
) -> Result<(), AllocError> {
    rules.extend(standing.map(|standing| any_rule(luck, all, standing)))
}

// Adds rules of any kind, whose parts are any earlier ones, until so many stand.
pub fn nested(
    luck: &mut Luck,
    rules: &mut Vec<Rule>,
    all: u8,
    many: usize,
) -> Result<(), AllocError> {
    let standing = rules.len()..many;
    any_rules(luck, rules, all, standing)
}
