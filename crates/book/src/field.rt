// The fields of a book.
ghost use Rattle.std.specs.Prelude.{ℕ, ◌+◌, ◌^◌, ◌<◌, ◌≤◌, length, slice_index};

use crate::fault::{Cause, Fault};

// A field: its tag, its value, which is a part of the book's own bytes, and the number of its tag's byte. The numbers of all its
// bytes fit a usize.
#[derive(Clone, Copy)]
pub(crate) struct Field<'a> {
    pub(crate) tag: u8,
    pub(crate) value: &'a [u8],
    pub(crate) at: usize,
    ghost numbered: { at + 3 + length value.now < 2 ^ 64 },
}

impl Field<'_> {
    ghost use Rattle.std.specs.Prelude.{◌≡◌};
    ghost use Rattle.book.specs.declared.fault.Cause.TheVariants.{OutOfRange};
    ghost use Rattle.book.specs.Faults.{fault};
    ghost use Rattle.book.specs.Tests.{Judged, Anything};
    ghost use Rattle.book.specs.Records.{tag_test, length_test};

    // The tag is the one that is due.
    pub(crate) fn tagged(self, due: u8) -> Result<(), Fault>
        ensures { Judged (tag_test due self.entry.tag self.entry.at) result Anything }
    {
        if self.tag != due {
            return Err(Fault::at(Cause::OtherTag, self.at));
        }
        Ok(())
    }

    // The value has so many bytes.
    pub(crate) fn sized(self, size: usize) -> Result<(), Fault>
        ensures { Judged (length_test size self.entry.value.now self.entry.at) result Anything }
    {
        if self.value.len() != size {
            return Err(Fault::at(Cause::WrongLength, self.at));
        }
        Ok(())
    }

    // Byte `k` of the value is out of its range.
    pub(crate) fn out_of_range(self, k: usize) -> Fault
        requires { k < length self.value.now }
        ensures { result ≡ fault OutOfRange (self.entry.at + 3 + k) }
    {
        Fault::at(Cause::OutOfRange, self.at + 3 + k)
    }
}

// Yields one field after another. It keeps the place beside the bytes, since faults tell the byte.
#[derive(Drop)]
pub(crate) struct FieldReader<'a> {
    pub(crate) bytes: &'a [u8],
    pub(crate) at: usize,
    ghost inside: { at ≤ length bytes.now },
}

impl<'a> FieldReader<'a> {
    ghost use Rattle.std.specs.Prelude.{◌≡◌, MatchBool};
    ghost use Rattle.book.specs.Tests.{Judged};
    ghost use Rattle.book.specs.Fields.{field_tests, due_tests};
    ghost use Rattle.book.specs.Readers.{bytes_of, Stands, Yields};

    pub(crate) fn new(bytes: &'a [u8]) -> FieldReader<'a>
        ensures { Stands bytes.now 0 result }
    {
        FieldReader { bytes, at: 0 }
    }

    pub(crate) fn ended(&self) -> bool
        ensures { MatchBool result (self.now.at ≡ length (bytes_of self.now)) (self.now.at < length (bytes_of self.now)) }
    {
        self.at == self.bytes.len()
    }

    // The field that stands here.
    pub(crate) fn next(&mut self) -> Result<Field<'a>, Fault>
        ensures { Judged (field_tests (bytes_of self.old) self.old.at) result (Yields self.old self.new) }
    {
        let at = self.at;
        let [tag, high, low, rest @ ..] = &self.bytes[at..] else {
            return Err(Fault::at(Cause::Cut, at));
        };
        let size = usize::from(u16::from_be_bytes([*high, *low]));
        let Some(value) = rest.get(..size) else {
            return Err(Fault::at(Cause::Cut, at));
        };
        self.at = at + 3 + size;
        Ok(Field {
            tag: *tag,
            value,
            at,
        })
    }

    // The same, where the book must not end.
    pub(crate) fn due(&mut self) -> Result<Field<'a>, Fault>
        ensures { Judged (due_tests (bytes_of self.old) self.old.at) result (Yields self.old self.new) }
    {
        if self.ended() {
            return Err(Fault::at(Cause::Ended, self.bytes.len()));
        }
        self.next()
    }
}

// The largest byte: it tells a proof that each is below 256.
pub(crate) fn largest(bytes: &[u8]) -> Option<u8>
    ensures { (i : ℕ) → i < length bytes.now → slice_index bytes.now i < 256 }
{
    bytes.iter().copied().max()
}
