// The calls that judge a table of rules.
ghost use Rattle.std.specs.Prelude.{◌≡◌, ◌+◌, ◌≤◌, ◌++◌, length, IfOk, OnOk};
ghost use Rattle.judged.specs.Lines.{rounds_of, judging, judging_from};

use calls::Call;
use std::alloc::{AllocError, Global};

// So many rounds of a rule, and a tell before each: two pushes in each turn, for which a chain would be no plainer.
fn rounds(calls: &mut Vec<Call>, rule: u8, rounds: u8) -> Result<(), AllocError>
    ensures { OnOk result (calls.new.items ≡ calls.old.items ++ rounds_of rule rounds) }
{
    for _k in 0..rounds {
        calls.push(Call::Tell(rule))?;
        calls.push(Call::Round(rule))?;
    }
    Ok(())
}

// One rule: its write, its rounds, and a tell and an ask for each state after them.
fn one(
    calls: &mut Vec<Call>,
    rule: u8,
    states: u8,
    write: Call,
    times: u8,
) -> Result<(), AllocError>
    ensures { OnOk result (calls.new.items ≡ calls.old.items ++ judging rule states write times) }
{
    calls.push(write)?;
    rounds(calls, rule, times)?;
    calls.push(Call::Tell(rule))?;
    calls.extend((0..states).map(|state| Call::Ask(rule, state)))
}

// The rules of a table, each as the call that writes it and the rounds that settle it.
pub(crate) fn table(heap: Global, states: u8, rows: &[(Call, u8)]) -> Result<Vec<Call>, AllocError>
    requires { length rows.now ≤ 32 }
    ensures { IfOk result (λ v. v.items ≡ judging_from 0 states rows.now) }
{
    let mut calls = Vec::new(heap);
    for (rule, row) in rows.iter().enumerate() {
        one(&mut calls, rule as u8, states, row.0, row.1)?;
    }
    Ok(calls)
}
