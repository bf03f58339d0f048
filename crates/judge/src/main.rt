// Judges a session book, or the resend drill, and prints the listing or a playbook.
#![tactic(auto)]

ghost use Rattle.judge.specs.Orders.{Asks};

use report::{Report, list_book, list_drill, playbook_of_book};
use std::io::{Read, Write};
use std::process::ExitCode;
use std::{env, io};

// One byte more than a book may have is enough to refuse it.
const KEPT: u64 = 65536;

const USAGE: &str =
    "usage: judge < BOOK\n       judge drill LIMIT < RULES\n       judge playbook RULE < BOOK\n";

// What the arguments ask for.
enum Order {
    List,
    Drill(u8),
    Playbook(usize),
}

fn input(rt: &HostRuntime) -> io::Result<Vec<u8>> {
    let mut bytes = Vec::new(rt.alloc());
    rt.stdin().take(KEPT).read_to_end(&mut bytes)?;
    Ok(bytes)
}

// What a word with a number asks for. A limit that no byte holds is as far out of range as 0.
fn asked_for(word: &str, number: usize) -> Option<Order>
    ensures { Asks word.now number result }
{
    match word {
        "drill" => Some(Order::Drill(u8::try_from(number).unwrap_or(0))),
        "playbook" => Some(Order::Playbook(number)),
        _ => None,
    }
}

fn order_of(rt: &HostRuntime) -> io::Result<Option<Order>> {
    let mut words = env::args(rt)?;
    let _program = words.next();
    let Some(word) = words.next() else {
        return Ok(Some(Order::List));
    };
    let Some(number) = words.next() else {
        return Ok(None);
    };
    if words.next().is_some() {
        return Ok(None);
    }
    let number = number.as_str().parse::<usize>().ok();
    Ok(number.and_then(|number| asked_for(word.as_str(), number)))
}

fn main(rt: HostRuntime) -> anyhow::Result<ExitCode> {
    let heap = rt.alloc();
    let Some(order) = order_of(&rt)? else {
        rt.eprint(USAGE)?;
        return Ok(ExitCode::FAILURE);
    };
    let report = match order {
        Order::List => list_book(heap, input(&rt)?.as_slice())?,
        Order::Drill(limit) => list_drill(heap, limit, input(&rt)?.as_slice())?,
        Order::Playbook(rule) => playbook_of_book(heap, input(&rt)?.as_slice(), rule)?,
    };
    match report {
        Report::Listing(text) => rt.print(text.as_str())?,
        Report::Playbook(bytes) => rt.stdout().write_all(bytes.as_slice())?,
        Report::Declined(line) => {
            rt.print(line.as_str())?;
            return Ok(ExitCode::FAILURE);
        }
    }
    Ok(ExitCode::SUCCESS)
}
