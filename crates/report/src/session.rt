// From the bytes of a session to what is printed of it.
ghost use Rattle.std.specs.Prelude.{IfOk};
ghost use Rattle.report.specs.Printed.{Prints, listed};
ghost use Rattle.report.specs.Whole.{faulty, playbook_of, OfBook, OfDrill};

use crate::report::{list, playbook};
use crate::types::Report;
use book::{Fault, UnreadBook, read_rules};
use drill::Drill;
use listing::{fault_line, no_game_line};
use std::alloc::{AllocError, Global};

// The line of a fault.
fn faulted(heap: Global, fault: Fault) -> Result<Report, AllocError>
    ensures { IfOk result (Prints (faulty fault)) }
{
    Ok(Report::Declined(fault_line(heap, fault)?))
}

// The listing of a session book, or the line of its fault or of its first refused rule. The playbook below is read the same
// way; one function over a closure for the call in the middle would owe a longer contract than both have.
pub fn list_book(heap: Global, bytes: &[u8]) -> Result<Report, AllocError>
    ensures { IfOk result (OfBook bytes.now listed) }
{
    let unread = UnreadBook { bytes };
    match unread.read() {
        Ok(filed) => {
            let rules = filed.rules();
            list(heap, filed, rules)
        }
        Err(fault) => faulted(heap, fault),
    }
}

// The playbook of a rule of a session book, or the line that says why there is none.
pub fn playbook_of_book(heap: Global, bytes: &[u8], rule: usize) -> Result<Report, AllocError>
    ensures { IfOk result (OfBook bytes.now (playbook_of rule)) }
{
    let unread = UnreadBook { bytes };
    match unread.read() {
        Ok(filed) => {
            let rules = filed.rules();
            playbook(heap, filed, rules, rule)
        }
        Err(fault) => faulted(heap, fault),
    }
}

// The listing of the drill of a limit, judged by rules as a book has them.
pub fn list_drill(heap: Global, limit: u8, bytes: &[u8]) -> Result<Report, AllocError>
    ensures { IfOk result (OfDrill limit bytes.now) }
{
    let drill = match Drill::new(limit) {
        Ok(drill) => drill,
        Err(refusal) => return Ok(Report::Declined(no_game_line(heap, refusal)?)),
    };
    match read_rules(bytes) {
        Ok(rules) => list(heap, drill, rules),
        Err(fault) => faulted(heap, fault),
    }
}
