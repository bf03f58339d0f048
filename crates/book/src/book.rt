// The whole book.
ghost use Rattle.std.specs.Prelude.{◌≡◌, ℕ, ◌<◌, length, drop, slice_index};
ghost use Rattle.book.specs.Tests.{Judged, each, OneVerdict};
ghost use Rattle.book.specs.Layout.{states_tests, all_rules, length_tests, parts_tests, book_tests, list_tests};
ghost use Rattle.book.specs.Readers.{bytes_of, unread, Stands, Over, WentOver, FiledFrom};
ghost use Rattle.book.specs.Reading.{Read, OneContent, ReadRules, OneList};

use crate::fault::{Cause, Fault};
use crate::field::{FieldReader, largest};
use crate::filed::FiledBook;
use crate::heading::Heading;
use crate::record::RecordReader;
use crate::rules::Rules;

// Reads the parts of a book, one after another.
#[derive(Drop)]
struct BookReader<'a> {
    records: RecordReader<'a>,
}

impl<'a> BookReader<'a> {
    // A reader at the start of the bytes, where there are few enough for a book.
    fn open(bytes: &'a [u8]) -> Result<BookReader<'a>, Fault>
        ensures verdict { Judged (length_tests bytes.now) result (λ reader. Stands bytes.now 0 reader.records.fields) }
        ensures small { (i : ℕ) → i < length bytes.now → slice_index bytes.now i < 256 }
    {
        let _ = largest(bytes);
        if bytes.len() > 65535 {
            return Err(Fault::at(Cause::TooLong, 0));
        }
        let fields = FieldReader::new(bytes);
        Ok(BookReader {
            records: RecordReader { fields },
        })
    }

    // The states, from here on.
    fn states(&mut self, heading: Heading) -> Result<(), Fault>
        ensures { Judged (each heading.states (states_tests heading.players heading.states (bytes_of self.old.records.fields) self.old.records.fields.at)) result (WentOver heading.states self.old.records.fields self.new.records.fields) }
    {
        for _k in 0..heading.states {
            self.records.state(heading)?;
        }
        Ok(())
    }

    // The rules, from here to the end.
    fn rules(&mut self) -> Result<Rules<'a>, Fault>
        ensures { Judged (all_rules (bytes_of self.old.records.fields) self.old.records.fields.at) result (Over (drop self.old.records.fields.at (bytes_of self.old.records.fields))) }
    {
        let rules = Rules {
            bytes: &self.records.fields.bytes[self.records.fields.at..],
        };
        while !self.records.fields.ended() {
            self.records.rule()?;
        }
        Ok(rules)
    }

    // The heading, the states and the rules.
    fn book(&mut self) -> Result<FiledBook<'a>, Fault>
        requires { self.old.records.fields.at ≡ 0 }
        ensures { Judged (parts_tests (bytes_of self.old.records.fields)) result (FiledFrom (bytes_of self.old.records.fields)) }
    {
        let bytes = self.records.fields.bytes;
        let heading = self.records.heading()?;
        self.states(heading)?;
        let rules = self.rules()?;
        Ok(FiledBook {
            bytes,
            players: heading.players,
            states: heading.states,
            start: heading.start,
            rules,
        })
    }
}

// Bytes that may be a book.
#[derive(Clone, Copy)]
pub struct UnreadBook<'a> {
    pub bytes: &'a [u8],
}

impl<'a> UnreadBook<'a> {
    // The book, where the bytes are those of a content in range, and else the first fault.
    pub fn read(&self) -> Result<FiledBook<'a>, Fault>
        ensures verdict { Judged (book_tests (unread self.now)) result (FiledFrom (unread self.now)) }
        ensures one_verdict { OneVerdict (book_tests (unread self.now)) }
        ensures content { Read (unread self.now) result }
        ensures one_content { OneContent (unread self.now) }
    {
        let mut reader = BookReader::open(self.bytes)?;
        reader.book()
    }
}

// The rules, where the bytes are those of rules alone, and else the first fault.
pub fn read_rules(bytes: &[u8]) -> Result<Rules<'_>, Fault>
    ensures verdict { Judged (list_tests bytes.now) result (Over bytes.now) }
    ensures one_verdict { OneVerdict (list_tests bytes.now) }
    ensures content { ReadRules bytes.now result }
    ensures one_list { OneList bytes.now }
{
    let mut reader = BookReader::open(bytes)?;
    reader.rules()
}
