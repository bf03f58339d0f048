// The records of a book: what the value of a field says.
ghost use Rattle.std.specs.Prelude.{◌≡◌, ◌+◌, ◌-◌, ◌≤◌, length};
ghost use Rattle.book.specs.Tests.{Judged, each, Anything};
ghost use Rattle.book.specs.Records.{state_tests, rule_tests, count_tests, next_tests, Multiplied};
ghost use Rattle.book.specs.Layout.{heading_at, state_at, rule_at};
ghost use Rattle.book.specs.Readers.{bytes_of, Headed, Went};

use crate::fault::{Cause, Fault};
use crate::field::{Field, FieldReader};
use crate::heading::Heading;

// A rule has four bytes.
fn rule(field: Field<'_>) -> Result<(), Fault>
    ensures { Judged (rule_tests field.entry.tag field.entry.value.now field.entry.at) result Anything }
{
    field.tagged(3)?;
    field.sized(4)
}

// The product of the counts of moves.
fn counts(heading: Heading, field: Field<'_>) -> Result<usize, Fault>
    requires { 2 + heading.players ≤ length field.value.now }
    ensures { Judged (each heading.players (count_tests field.entry.value.now field.entry.at)) result (Multiplied heading.players field.entry.value.now) }
{
    let players = usize::from(heading.players);
    let mut product: usize = 1;
    for (i, count) in field.value[2..2 + players].iter().enumerate() {
        if !(1..=15).contains(count) {
            return Err(field.out_of_range(2 + i));
        }
        product *= usize::from(*count);
    }
    Ok(product)
}

// Each next state is one of the game's.
fn nexts(heading: Heading, field: Field<'_>) -> Result<(), Fault>
    requires { 2 + heading.players ≤ length field.value.now }
    ensures { Judged (each (length field.entry.value.now - (2 + heading.players)) (next_tests heading.players heading.states field.entry.value.now field.entry.at)) result Anything }
{
    let first = 2 + usize::from(heading.players);
    for (j, next) in field.value[first..].iter().enumerate() {
        if u16::from(*next) >= heading.states {
            return Err(field.out_of_range(first + j));
        }
    }
    Ok(())
}

fn state(heading: Heading, field: Field<'_>) -> Result<(), Fault>
    ensures { Judged (state_tests heading.players heading.states field.entry.tag field.entry.value.now field.entry.at) result Anything }
{
    field.tagged(2)?;
    let least = 2 + usize::from(heading.players);
    if field.value.len() < least {
        return Err(Fault::at(Cause::WrongLength, field.at));
    }
    let product = counts(heading, field)?;
    if product > 4096 {
        return Err(field.out_of_range(2));
    }
    field.sized(least + product)?;
    nexts(heading, field)
}

// Reads the records of the fields, one after another.
#[derive(Drop)]
pub(crate) struct RecordReader<'a> {
    pub(crate) fields: FieldReader<'a>,
}

impl RecordReader<'_> {
    pub(crate) fn heading(&mut self) -> Result<Heading, Fault>
        ensures { Judged (heading_at (bytes_of self.old.fields) self.old.fields.at) result (Headed self.old.fields self.new.fields) }
    {
        let field = self.fields.due()?;
        Heading::read(field)
    }

    pub(crate) fn state(&mut self, heading: Heading) -> Result<(), Fault>
        ensures { Judged (state_at heading.players heading.states (bytes_of self.old.fields) self.old.fields.at) result (Went self.old.fields self.new.fields) }
    {
        let field = self.fields.due()?;
        state(heading, field)
    }

    pub(crate) fn rule(&mut self) -> Result<(), Fault>
        ensures { Judged (rule_at (bytes_of self.old.fields) self.old.fields.at) result (Went self.old.fields self.new.fields) }
    {
        let field = self.fields.next()?;
        rule(field)
    }
}
