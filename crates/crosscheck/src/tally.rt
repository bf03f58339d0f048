// What was compared, and what differs.
use std::alloc::{AllocError, Global};

// The first differences are told, the others only counted.
const TOLD: u64 = 40;

// How many of each were compared.
#[derive(Clone, Copy, Default)]
pub struct Compared {
    pub games: u64,
    pub boards: u64,
    pub rules: u64,
    pub rounds: u64,
    pub marks: u64,
    // The highest number of a mark.
    pub deepest: u64,
    pub choices: u64,
    pub bytes: u64,
    pub runs: u64,
    pub bound: u64,
    pub calls: u64,
    pub refused: u64,
    pub answers: u64,
    pub books: u64,
    pub faults: u64,
}

impl Compared {
    // In the order in which they are told, each with its word.
    fn counts(self) -> [(&'static str, u64); 15] {
        [
            ("", self.games),
            (" boards", self.boards),
            (" rules", self.rules),
            (" rounds", self.rounds),
            (" marks", self.marks),
            (" deepest", self.deepest),
            (" choices", self.choices),
            (" bytes", self.bytes),
            (" played", self.runs),
            (" verdicts", self.bound),
            (" calls", self.calls),
            (" refused", self.refused),
            (" answers", self.answers),
            (" books", self.books),
            (" faults", self.faults),
        ]
    }
}

pub fn add(count: &mut u64, more: usize) {
    *count = count.saturating_add(u64::try_from(more).unwrap_or(u64::MAX));
}

#[derive(Drop)]
pub struct Tally {
    pub heap: Global,
    pub compared: Compared,
    // By number, as they are printed: how often each refusal from 1 on was given, and each fault from 14 on.
    given: [u64; 20],
    pub differ: u64,
    before: u64,
    pub lines: Vec<String>,
}

impl Tally {
    pub fn new(heap: Global) -> Tally {
        Tally {
            heap,
            compared: Compared::default(),
            given: [0; 20],
            differ: 0,
            before: 0,
            lines: Vec::new(heap),
        }
    }

    // Notes that a refusal or a fault of this number was given.
    pub fn given(&mut self, number: u8) {
        if let Some(count) = self.given.get_mut(number as usize) {
            add(count, 1);
        }
    }

    // Notes a mark and its number.
    pub fn marked(&mut self, number: Option<u16>) {
        add(&mut self.compared.marks, 1);
        if let Some(number) = number {
            self.compared.deepest = self.compared.deepest.max(u64::from(number));
        }
    }

    // Notes a difference.
    pub fn differs(&mut self, line: String) -> Result<(), AllocError> {
        if self.differ < TOLD {
            self.lines.push(line)?;
        }
        self.differ = self.differ.saturating_add(1);
        Ok(())
    }

    // To note what is found of this game or book.
    pub fn notes<'a>(&'a mut self, name: &'a str) -> Notes<'a> {
        Notes { tally: self, name }
    }

    // Ends a part with a line on what was compared in it.
    pub fn part(&mut self, title: &str) -> Result<(), AllocError> {
        let mut line = String::from_str(self.heap, title)?;
        for (word, count) in self.compared.counts() {
            if count > 0 {
                write!(line, "{word} {count}")?;
            }
        }
        let differ = self.differ.saturating_sub(self.before);
        write!(line, " differ {differ}")?;
        self.lines.push(line)?;
        self.before = self.differ;
        self.compared = Compared::default();
        Ok(())
    }

    // Each refusal and each fault was given at least once, and how often.
    pub fn given_all(&mut self) -> Result<(), AllocError> {
        let mut line = String::from_str(self.heap, "refusals and faults")?;
        let given = self.given;
        for (number, count) in given.iter().enumerate().skip(1) {
            write!(line, " {number}:{count}")?;
            if *count == 0 {
                let never = format!(in self.heap; "number {number} was never given")?;
                self.notes("refusals and faults").differs(&never)?;
            }
        }
        self.lines.push(line)?;
        Ok(())
    }
}

// The tally, and the name of the game or the book that is compared.
#[derive(Drop)]
pub struct Notes<'a> {
    pub tally: &'a mut Tally,
    pub name: &'a str,
}

impl Notes<'_> {
    // What is counted.
    pub fn compared(&mut self) -> &mut Compared {
        &mut self.tally.compared
    }

    // Notes a difference.
    pub fn differs(&mut self, what: &str) -> Result<(), AllocError> {
        let name = self.name;
        let line = format!(in self.tally.heap; "differ: {name}: {what}")?;
        self.tally.differs(line)
    }

    // Notes a difference unless the fact holds.
    pub fn demand(&mut self, holds: bool, what: &str) -> Result<(), AllocError> {
        if holds { Ok(()) } else { self.differs(what) }
    }
}
