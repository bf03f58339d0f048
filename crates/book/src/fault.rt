// What is wrong with a book, and where.
ghost use Rattle.std.specs.Prelude.{◌≡◌, Some};
ghost use Rattle.book.specs.Faults.{fault, number_of, word_of};

use std::fmt;
use std::fmt::{Display, Formatter, Write};

#[derive(Clone, Copy, PartialEq, Eq, Debug)]
pub enum Cause {
    // The book has over 65,535 bytes.
    TooLong,
    // The book ends where a heading or a state is due.
    Ended,
    // The book ends inside a field.
    Cut,
    // A field has another tag than is due.
    OtherTag,
    // A field's value has a length that its record cannot have.
    WrongLength,
    // A number in a record is out of its range.
    OutOfRange,
}

// Which reader found the fault.
#[derive(Clone, Copy, PartialEq, Eq, Debug)]
pub enum Layer {
    Book,
    Field,
    Record,
}

#[derive(Clone, Copy, PartialEq, Eq, Debug)]
pub struct Fault {
    pub cause: Cause,
    pub byte: usize,
    pub layer: Layer,
}

// The number under which a cause is reported.
impl From<Cause> for u8 {
    ghost from_gives = { λ cause number. number ≡ number_of cause };

    fn from(cause: Cause) -> u8 {
        match cause {
            Cause::TooLong => 14,
            Cause::Ended => 15,
            Cause::Cut => 16,
            Cause::OtherTag => 17,
            Cause::WrongLength => 18,
            Cause::OutOfRange => 19,
        }
    }
}

impl Layer {
    // The word for the layer.
    pub fn word(self) -> &'static str
        ensures { result.now ≡ word_of self }
    {
        match self {
            Layer::Book => "book",
            Layer::Field => "field",
            Layer::Record => "record",
        }
    }
}

impl Display for Layer {
    ghost output = { λ layer. Some (word_of layer) };

    fn fmt<W: Write>(&self, f: &mut Formatter<W>) -> fmt::Result {
        f.write_str(self.word())
    }
}

impl Fault {
    pub(crate) fn at(cause: Cause, byte: usize) -> Fault
        ensures { result ≡ fault cause byte }
    {
        let layer = match cause {
            Cause::TooLong | Cause::Ended => Layer::Book,
            Cause::Cut => Layer::Field,
            Cause::OtherTag | Cause::WrongLength | Cause::OutOfRange => Layer::Record,
        };
        Fault { cause, byte, layer }
    }
}
