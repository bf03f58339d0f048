// The calls that judge a rule.
ghost use Rattle.std.specs.Prelude.{◌≡◌, ◌+◌, ◌≤◌, ◌++◌, replicate, IfOk, OnOk};
ghost use Rattle.calls.specs.declared.types.Call.TheVariants.{Round};
ghost use Rattle.report.specs.Steps.{asks, script as script_of};

use atl::rounds_enough;
use book::RuleField;
use calls::Call;
use std::alloc::{AllocError, Global};

// As many rounds of the rule as any rule may need. Those after the one that settles it are refused and change nothing.
// One push in each turn: a chain of repeated calls would be no plainer.
fn add_rounds(calls: &mut Vec<Call>, states: u16, rule: u8) -> Result<(), AllocError>
    ensures { OnOk result (calls.new.items ≡ calls.old.items ++ replicate (states + 1) (Round rule)) }
{
    for _round in 0..rounds_enough(states) {
        calls.push(Call::Round(rule))?;
    }
    Ok(())
}

// A question for each state. A `for`: in a closure the cast would need its bound for every number.
fn add_asks(calls: &mut Vec<Call>, states: u16, rule: u8) -> Result<(), AllocError>
    requires { states ≤ 256 }
    ensures { OnOk result (calls.new.items ≡ calls.old.items ++ asks rule states) }
{
    for state in 0..states {
        calls.push(Call::Ask(rule, state as u8))?;
    }
    Ok(())
}

// The calls that write a rule, give it rounds, and then ask what it says.
pub(crate) fn script(
    heap: Global,
    states: u16,
    rule: u8,
    field: RuleField,
) -> Result<Vec<Call>, AllocError>
    requires { states ≤ 256 }
    ensures { IfOk result (λ v. v.items ≡ script_of states rule field) }
{
    let mut calls = vec![in heap; Call::Write(field.kind, field.group, field.r, field.s)]?;
    add_rounds(&mut calls, states, rule)?;
    calls.push(Call::Tell(rule))?;
    add_asks(&mut calls, states, rule)?;
    Ok(calls)
}
