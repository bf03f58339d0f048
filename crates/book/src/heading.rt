// The heading of a book.
ghost use Rattle.std.specs.Prelude.{◌≤◌};

use crate::fault::Fault;
use crate::field::Field;

// What the heading says, in range.
#[derive(Clone, Copy)]
pub(crate) struct Heading {
    pub(crate) players: u8,
    pub(crate) states: u16,
    pub(crate) start: u8,
    ghost some_player: { 1 ≤ players },
    ghost few_players: { players ≤ 6 },
}

impl Heading {
    ghost use Rattle.book.specs.Tests.{Judged};
    ghost use Rattle.book.specs.Records.{heading_tests};
    ghost use Rattle.book.specs.Readers.{Heads};

    pub(crate) fn read(field: Field<'_>) -> Result<Heading, Fault>
        ensures { Judged (heading_tests field.entry.tag field.entry.value.now field.entry.at) result (Heads field.entry.value.now) }
    {
        field.tagged(1)?;
        field.sized(3)?;
        let players = field.value[0];
        let states = u16::from(field.value[1]) + 1;
        let start = field.value[2];
        if !(1..=6).contains(&players) {
            return Err(field.out_of_range(0));
        }
        if u16::from(start) >= states {
            return Err(field.out_of_range(2));
        }
        Ok(Heading {
            players,
            states,
            start,
        })
    }
}
