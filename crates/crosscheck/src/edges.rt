// Each refusal of a board in turn, with the one that is due.
use crate::bench::Bench;
use crate::layout::Layout;
use crate::tally::{Tally, add};
use crate::words::{Call, Said, Why};
use drill::Drill;
use std::alloc::AllocError;

// A call on the drill of limit 1, which has two players and four states, with a buffer of 18 bytes.
fn expect(bench: &mut Bench<'_, Drill>, call: Call, due: Option<Why>) -> Result<(), AllocError> {
    let refused = match bench.careful(call, 18)? {
        Said::Refused(number) => Some(number),
        _ => None,
    };
    let due = due.map(u8::from);
    if refused != due {
        let number = refused.unwrap_or(0);
        let due = due.unwrap_or(0);
        let line = format!(in bench.notes.tally.heap;
            "differ: refusals: {call}: refused {number}, due {due}"
        )?;
        bench.notes.tally.differs(line)?;
    }
    Ok(())
}

fn expect_all(
    bench: &mut Bench<'_, Drill>,
    calls: &[(Call, Option<Why>)],
) -> Result<(), AllocError> {
    for (call, due) in calls {
        expect(bench, *call, *due)?;
    }
    Ok(())
}

fn expect_writes(bench: &mut Bench<'_, Drill>) -> Result<(), AllocError> {
    expect_all(
        bench,
        &[
            (Call::Erase, Some(Why::NoRule)),
            (Call::Write([9, 9, 99, 9]), Some(Why::NoKind)),
            (Call::Write([255, 0, 0, 0]), Some(Why::NoKind)),
            (Call::Write([3, 4, 99, 9]), Some(Why::NoGroup)),
            (Call::Write([2, 1, 99, 9]), Some(Why::NoGroup)),
            (Call::Write([0, 0, 16, 0]), Some(Why::NoPart)),
            (Call::Write([0, 0, 15, 1]), Some(Why::NoPart)),
            (Call::Write([1, 0, 0, 0]), Some(Why::NoPart)),
            (Call::Write([0, 0, 8, 0]), None),
            (Call::Write([3, 1, 0, 1]), Some(Why::NoPart)),
            (Call::Write([4, 3, 0, 1]), Some(Why::NoPart)),
            (Call::Write([8, 3, 1, 0]), Some(Why::NoPart)),
            (Call::Write([1, 0, 0, 0]), None),
            (Call::Write([2, 0, 0, 1]), None),
            (Call::Write([4, 3, 2, 0]), None),
        ],
    )
}

fn expect_rounds(bench: &mut Bench<'_, Drill>) -> Result<(), AllocError> {
    expect_all(
        bench,
        &[
            (Call::Round(4), Some(Why::NoRule)),
            (Call::Round(3), Some(Why::PartUnsettled)),
            (Call::Round(1), Some(Why::PartUnsettled)),
            (Call::Round(0), None),
            (Call::Round(0), Some(Why::Settled)),
            (Call::Round(1), None),
            (Call::Round(3), Some(Why::PartUnsettled)),
            (Call::Round(2), None),
            (Call::Play(3, 0), Some(Why::Unsettled)),
            (Call::Copy(3, 0), Some(Why::Unsettled)),
            (Call::Round(3), None),
            (Call::Play(3, 0), Some(Why::Unsettled)),
            (Call::Round(3), None),
            (Call::Round(3), None),
            (Call::Round(3), Some(Why::Settled)),
        ],
    )
}

fn expect_questions(bench: &mut Bench<'_, Drill>) -> Result<(), AllocError> {
    expect_all(
        bench,
        &[
            (Call::Ask(4, 9), Some(Why::NoRule)),
            (Call::Ask(3, 4), Some(Why::NoState)),
            (Call::Ask(3, 3), None),
            (Call::Tell(4), Some(Why::NoRule)),
            (Call::Tell(255), Some(Why::NoRule)),
            (Call::Play(4, 9), Some(Why::NoRule)),
            (Call::Play(0, 4), Some(Why::NoState)),
            (Call::Play(0, 0), Some(Why::NoPlaybook)),
            (Call::Play(3, 3), None),
            (Call::Copy(4, 99), Some(Why::NoRule)),
            (Call::Copy(0, 99), Some(Why::NoPlaybook)),
            (Call::Copy(3, 2), None),
            (Call::Copy(3, 3), Some(Why::NoRoom)),
            (Call::Copy(3, 19), Some(Why::NoRoom)),
            (Call::Copy(3, usize::MAX), Some(Why::NoRoom)),
        ],
    )
}

fn expect_full(bench: &mut Bench<'_, Drill>) -> Result<(), AllocError> {
    for _ in 4..32 {
        expect(bench, Call::Write([0, 0, 0, 0]), None)?;
    }
    expect_all(
        bench,
        &[
            (Call::Write([0, 0, 0, 0]), Some(Why::Full)),
            (Call::Write([9, 9, 99, 9]), Some(Why::Full)),
            (Call::Erase, None),
            (Call::Write([9, 9, 99, 9]), Some(Why::NoKind)),
            (Call::Write([6, 3, 30, 0]), None),
            (Call::Write([6, 3, 30, 0]), Some(Why::Full)),
        ],
    )
}

fn expect_refusals(bench: &mut Bench<'_, Drill>) -> Result<(), AllocError> {
    expect_writes(bench)?;
    expect_rounds(bench)?;
    expect_questions(bench)?;
    expect_full(bench)
}

// The refusals of a board of the drill of limit 1.
pub fn refusals(tally: &mut Tally) -> Result<(), AllocError> {
    let Ok(drill) = Drill::new(1) else {
        return tally.notes("drill 1").differs("there is none");
    };
    let mut bench = Bench::open(tally.notes("drill 1"), drill)?;
    let done = expect_refusals(&mut bench);
    bench.close();
    done
}

// Where the vector leads in a drill: hold stays, send with carry is answered, send with lose goes on or gives up.
fn drill_leads(limit: u16, state: u16, vector: u32) -> u16 {
    if state > limit {
        return state;
    }
    match vector {
        0x22 => limit.saturating_add(1),
        0x12 if state == limit => limit.saturating_add(2),
        0x12 => state.saturating_add(1),
        _ => state,
    }
}

fn drill_labels(limit: u16, state: u16) -> u16 {
    if state == limit.saturating_add(1) {
        256
    } else if state == limit.saturating_add(2) {
        1
    } else {
        0
    }
}

// The drill of the limit is as it was laid out.
fn is_drill(limit: u16, layout: &Layout) -> bool {
    layout.players == 2
        && layout.states == limit.saturating_add(3)
        && layout.steps.len() == 4 * limit as usize + 6
        && layout.astray == 0
        && (0..u16::MAX)
            .zip(layout.sites.iter())
            .all(|(state, site)| site.labels == drill_labels(limit, state))
        && layout.steps.iter().all(|step| {
            u16::from(step.next) == drill_leads(limit, u16::from(step.state), step.vector)
        })
}

// The drill of the limit answers as it should.
fn compare_drill(tally: &mut Tally, limit: u8, drill: &Drill) -> Result<(), AllocError> {
    let layout = Layout::of(tally.heap, drill)?;
    let name = format!(in tally.heap; "drill {limit}")?;
    tally
        .notes(&name)
        .demand(is_drill(u16::from(limit), &layout), "its answers")?;
    add(&mut tally.compared.answers, layout.steps.len());
    Ok(())
}

// The limits that a drill may have.
pub fn limits(tally: &mut Tally) -> Result<(), AllocError> {
    for limit in 0..=u8::MAX {
        let due = (limit == 0 || limit > 253).then_some(u8::from(Why::NoLimit));
        let refused = match Drill::new(limit) {
            Ok(drill) => {
                compare_drill(tally, limit, &drill)?;
                None
            }
            Err(refusal) => Some(u8::from(refusal)),
        };
        tally
            .notes("drill")
            .demand(refused == due, "a limit is taken or refused")?;
        if let Some(number) = refused {
            tally.given(number);
        }
        add(&mut tally.compared.calls, 1);
    }
    Ok(())
}
