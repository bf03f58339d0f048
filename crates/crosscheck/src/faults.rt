// The first fault of a book, by a straight walk over its bytes, compared with the reader's.
use crate::places::{self, put};
use crate::tally::{Notes, add};
use book::{Fault, Layer, UnreadBook};
use std::alloc::AllocError;

// What the walk finds wrong, by the number under which it is told.
#[derive(Clone, Copy, PartialEq, Eq)]
pub enum Flaw {
    BookLength = 14,
    NoField = 15,
    CutField = 16,
    Tag = 17,
    Length = 18,
    Value = 19,
}

impl From<Flaw> for u8 {
    fn from(flaw: Flaw) -> u8 {
        flaw as u8
    }
}

impl Flaw {
    // The layer that finds it.
    fn layer(self) -> Layer {
        match self {
            Flaw::BookLength | Flaw::NoField => Layer::Book,
            Flaw::CutField => Layer::Field,
            Flaw::Tag | Flaw::Length | Flaw::Value => Layer::Record,
        }
    }
}

#[derive(Clone, Copy, PartialEq, Eq)]
pub struct Bad {
    pub flaw: Flaw,
    pub byte: usize,
}

// 0 where there is none.
fn byte(bytes: &[u8], at: usize) -> u8 {
    places::at(bytes, at, 0)
}

// An error with the flaw and its byte if the test holds.
fn bad_if(test: bool, flaw: Flaw, byte: usize) -> Result<(), Bad> {
    if test {
        Err(Bad { flaw, byte })
    } else {
        Ok(())
    }
}

// The bytes of a book, and what the walk knows from the heading.
#[derive(Clone, Copy)]
struct Walk<'a> {
    bytes: &'a [u8],
    players: usize,
    states: usize,
}

// A field: the byte of its tag, and how many bytes its value has.
#[derive(Clone, Copy)]
struct Place {
    tag: usize,
    size: usize,
}

impl Place {
    // The byte so far behind the tag; the value begins 3 behind it.
    fn at(self, k: usize) -> usize {
        self.tag.saturating_add(k)
    }

    // The byte behind the field.
    fn end(self) -> usize {
        self.at(3).saturating_add(self.size)
    }
}

impl<'a> Walk<'a> {
    fn of(bytes: &'a [u8]) -> Walk<'a> {
        Walk {
            bytes,
            players: usize::from(byte(bytes, 3)),
            states: usize::from(byte(bytes, 4)) + 1,
        }
    }

    fn byte(self, at: usize) -> usize {
        usize::from(byte(self.bytes, at))
    }

    // The field whose tag is here. Its length stands behind the tag, highest byte first.
    fn field(self, tag: usize) -> Place {
        let high = byte(self.bytes, tag.saturating_add(1));
        let low = byte(self.bytes, tag.saturating_add(2));
        Place {
            tag,
            size: usize::from(u16::from_be_bytes([high, low])),
        }
    }

    fn heading(self, place: Place) -> Result<(), Bad> {
        let players = self.byte(place.at(3));
        bad_if(self.byte(place.tag) != 1, Flaw::Tag, place.tag)?;
        bad_if(place.size != 3, Flaw::Length, place.tag)?;
        bad_if(players == 0 || players > 6, Flaw::Value, place.at(3))?;
        let last = self.byte(place.at(4));
        bad_if(self.byte(place.at(5)) > last, Flaw::Value, place.at(5))
    }

    // The bytes from one place up to another; none where the book does not have them all.
    fn between(self, from: usize, to: usize) -> &'a [u8] {
        self.bytes.get(from..to).unwrap_or(&[])
    }

    // The byte behind the counts of a state.
    fn counts_end(self, place: Place) -> usize {
        place.at(5).saturating_add(self.players)
    }

    fn counts(self, place: Place) -> &'a [u8] {
        self.between(place.at(5), self.counts_end(place))
    }

    // Each count is from 1 to 15.
    fn counts_fit(self, place: Place) -> Result<(), Bad> {
        for (at, count) in (place.at(5)..).zip(self.counts(place)) {
            bad_if(*count == 0 || *count > 15, Flaw::Value, at)?;
        }
        Ok(())
    }

    fn product(self, place: Place) -> usize {
        let counts = self.counts(place).iter();
        counts.fold(
            1usize,
            |product, count| product.saturating_mul(usize::from(*count)),
        )
    }

    // Each next state is there.
    fn nexts_fit(self, place: Place) -> Result<(), Bad> {
        let from = self.counts_end(place);
        for (at, next) in (from..).zip(self.between(from, place.end())) {
            bad_if(usize::from(*next) >= self.states, Flaw::Value, at)?;
        }
        Ok(())
    }

    fn state(self, place: Place) -> Result<(), Bad> {
        let least = self.players.saturating_add(2);
        bad_if(self.byte(place.tag) != 2, Flaw::Tag, place.tag)?;
        bad_if(place.size < least, Flaw::Length, place.tag)?;
        self.counts_fit(place)?;
        let product = self.product(place);
        bad_if(product > 4096, Flaw::Value, place.at(5))?;
        let size = least.saturating_add(product);
        bad_if(place.size != size, Flaw::Length, place.tag)?;
        self.nexts_fit(place)
    }

    fn rule(self, place: Place) -> Result<(), Bad> {
        bad_if(self.byte(place.tag) != 3, Flaw::Tag, place.tag)?;
        bad_if(place.size != 4, Flaw::Length, place.tag)
    }

    // The field, which is the k-th of the book.
    fn record(self, place: Place, k: usize) -> Result<(), Bad> {
        bad_if(place.end() > self.bytes.len(), Flaw::CutField, place.tag)?;
        if k == 0 {
            self.heading(place)
        } else if k <= self.states {
            self.state(place)
        } else {
            self.rule(place)
        }
    }

    // The whole book.
    fn book(self) -> Result<(), Bad> {
        let len = self.bytes.len();
        bad_if(len > 65535, Flaw::BookLength, 0)?;
        // A `for`, since a walk that only goes on has no measure: a book has fewer fields than bytes.
        let mut tag: usize = 0;
        for k in 0..65536usize {
            if tag >= len {
                return bad_if(k <= self.states, Flaw::NoField, len);
            }
            let place = self.field(tag);
            self.record(place, k)?;
            tag = place.end();
        }
        Ok(())
    }
}

fn same(reader: Result<(), Fault>, walk: Result<(), Bad>) -> bool {
    match (reader, walk) {
        (Err(fault), Err(bad)) => {
            u8::from(fault.cause) == u8::from(bad.flaw)
                && fault.byte == bad.byte
                && fault.layer == bad.flaw.layer()
        }
        (Ok(()), Ok(())) => true,
        _ => false,
    }
}

// Compares the reader with the walk, where it is known what the walk finds.
pub fn expect_fault(
    notes: &mut Notes<'_>,
    bytes: &[u8],
    due: Result<(), Bad>,
) -> Result<(), AllocError> {
    notes.demand(
        Walk::of(bytes).book() == due,
        "the walk finds another fault than is due",
    )?;
    compare_faults(notes, bytes)
}

// Compares the reader with the walk on these bytes.
fn compare_faults(notes: &mut Notes<'_>, bytes: &[u8]) -> Result<(), AllocError> {
    let reader = UnreadBook { bytes }.read().map(|_| ());
    let walk = Walk::of(bytes).book();
    add(&mut notes.tally.compared.books, 1);
    if let Err(bad) = walk {
        notes.tally.given(u8::from(bad.flaw));
        add(&mut notes.tally.compared.faults, 1);
    }
    if same(reader, walk) {
        return Ok(());
    }
    let heap = notes.tally.heap;
    let name = notes.name;
    let (cause, byte) = match reader {
        Err(fault) => (u8::from(fault.cause), fault.byte),
        Ok(()) => (0, 0),
    };
    let (flaw, place) = match walk {
        Err(bad) => (u8::from(bad.flaw), bad.byte),
        Ok(()) => (0, 0),
    };
    let len = bytes.len();
    let line = format!(in heap;
        "differ: {name} of {len} bytes: the reader finds {cause} at {byte}, the walk {flaw} at {place}"
    )?;
    notes.tally.differs(line)
}

// The same on each of the book's beginnings.
pub fn compare_beginnings(notes: &mut Notes<'_>, bytes: &[u8]) -> Result<(), AllocError> {
    for len in 0..=bytes.len() {
        compare_faults(notes, &bytes[..len])?;
    }
    Ok(())
}

// The same with each byte in turn changed to other values.
pub fn compare_changes(notes: &mut Notes<'_>, bytes: &[u8]) -> Result<(), AllocError> {
    let mut changed = bytes.to_vec(notes.tally.heap)?;
    for (at, old) in bytes.iter().enumerate() {
        for new in [0u8, 1, 2, 3, 4, 5, 6, 7, 15, 16, 127, 128, 255] {
            put(&mut changed, at, new);
            compare_faults(notes, &changed)?;
        }
        put(&mut changed, at, *old);
    }
    Ok(())
}
