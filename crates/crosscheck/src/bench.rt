// Both judges on one game, call by call.
use crate::first;
use crate::layout::{Layout, first_states};
use crate::second::{Second, Standing};
use crate::tally::{Notes, add};
use crate::words::{Call, Rule, Said};
use board::Board;
use game::Game;
use std::alloc::{AllocError, Global};

// Both judges of a game, and what is noted of it.
pub struct Bench<'a, G> {
    pub notes: Notes<'a>,
    board: Board<G>,
    pub second: Second,
}

// The number of a mark.
fn number_of(said: Said) -> Option<u16> {
    match said {
        Said::Yes(number) | Said::No(number) => number,
        _ => None,
    }
}

// A buffer whose bytes differ from their neighbours.
fn buffer(heap: Global, len: usize) -> Result<Vec<u8>, AllocError> {
    let mut buffer = Vec::new(heap);
    let mut byte: u8 = 165;
    for _ in 0..len {
        buffer.push(byte)?;
        byte = byte.wrapping_mul(5).wrapping_add(1);
    }
    Ok(buffer)
}

impl<'a, G: Game + Drop> Bench<'a, G> {
    // On a new board of the game.
    pub fn open(notes: Notes<'a>, game: G) -> Result<Bench<'a, G>, AllocError> {
        let mut notes = notes;
        let heap = notes.tally.heap;
        let layout = Layout::of(heap, &game)?;
        notes.demand(layout.astray == 0, "a vector leads to no state")?;
        let second = Second::new(heap, layout);
        Ok(Bench {
            notes,
            board: Board::new(game),
            second,
        })
    }

    // The game, and what the second judge says of the rules.
    pub fn close(self) -> (G, Vec<Standing>) {
        let Bench {
            notes: _,
            board,
            second,
        } = self;
        (board.close(), second.standing)
    }

    // Tells that the judges answer the call with different words.
    fn differ(&mut self, call: Call, first: Said, second: Said) -> Result<(), AllocError> {
        let heap = self.notes.tally.heap;
        let what = match call.rule().and_then(|rule| self.second.rule(rule)) {
            Some(rule) => format!(in heap; "{call} ({rule}): first {first}, second {second}")?,
            None => format!(in heap; "{call}: first {first}, second {second}")?,
        };
        self.notes.differs(&what)
    }

    // Puts a call to both judges, with a buffer of so many bytes, and compares answers and bytes.
    pub fn call(&mut self, call: Call, len: usize) -> Result<Said, AllocError> {
        let heap = self.notes.tally.heap;
        let mut written = buffer(heap, len)?;
        let mut expected = buffer(heap, len)?;
        let first = first::answer(&mut self.board, call, &mut written);
        let second = self.second.answer(call, &mut expected)?;
        if first != second {
            self.differ(call, first, second)?;
        }
        if written != expected {
            let what = format!(in heap; "{call}: the bytes of the buffer")?;
            self.notes.differs(&what)?;
        }
        add(&mut self.notes.compared().bytes, len);
        if let Said::Refused(number) = first {
            self.notes.tally.given(number);
        }
        Ok(first)
    }

    // All that ask says of a rule.
    fn asked(&mut self, rule: u8, seen: &mut Vec<Said>) -> Result<(), AllocError> {
        for state in first_states(self.second.layout.states) {
            let said = first::answer(&mut self.board, Call::Ask(rule, state), &mut []);
            seen.push(said)?;
        }
        Ok(())
    }

    // All that tell and ask say of what stands.
    fn seen(&mut self) -> Result<Vec<Said>, AllocError> {
        let mut seen = Vec::new(self.notes.tally.heap);
        for rule in 0..33u8 {
            let told = first::answer(&mut self.board, Call::Tell(rule), &mut []);
            seen.push(told)?;
            if let Said::Refused(_) = told {
                break;
            }
            self.asked(rule, &mut seen)?;
        }
        Ok(seen)
    }

    // A call, and that a refused one changes nothing that can be asked or told.
    pub fn careful(&mut self, call: Call, len: usize) -> Result<Said, AllocError> {
        let before = self.seen()?;
        let said = self.call(call, len)?;
        add(&mut self.notes.compared().calls, 1);
        if let Said::Refused(_) = said {
            let same = before == self.seen()?;
            self.notes
                .demand(same, "a refused call changed what stands")?;
            add(&mut self.notes.compared().refused, 1);
        }
        Ok(said)
    }

    // Asks both judges for a rule's mark at each state.
    fn marks(&mut self, rule: u8) -> Result<(), AllocError> {
        for state in first_states(self.second.layout.states) {
            let said = self.call(Call::Ask(rule, state), 0)?;
            self.notes.tally.marked(number_of(said));
        }
        Ok(())
    }

    // Goes through the rounds of a rule, up to the first that is refused, with all marks in between.
    fn rounds(&mut self, rule: u8) -> Result<(), AllocError> {
        for _ in 0..259 {
            let said = self.call(Call::Round(rule), 0)?;
            self.call(Call::Tell(rule), 0)?;
            if let Said::Refused(_) = said {
                return Ok(());
            }
            self.marks(rule)?;
            add(&mut self.notes.compared().rounds, 1);
        }
        self.notes.differs("a rule is not settled by 259 rounds")
    }

    // The playbook of a rule, state by state.
    fn choices(&mut self, rule: u8) -> Result<Vec<u32>, AllocError> {
        let mut choices = Vec::new(self.notes.tally.heap);
        for state in first_states(self.second.layout.states) {
            if let Said::Choice(choice) = self.call(Call::Play(rule, state), 0)? {
                choices.push(choice)?;
            }
        }
        Ok(choices)
    }

    // The playbook of a rule, state by state and copied between other bytes, and then played.
    fn playbook(&mut self, number: u8, rule: Rule) -> Result<(), AllocError> {
        let playbook = self.choices(number)?;
        add(&mut self.notes.compared().choices, playbook.len());
        let bytes = 4 * self.second.layout.states as usize;
        self.call(Call::Copy(number, 3), bytes + 7)?;
        self.call(Call::Copy(number, 0), bytes)?;
        self.call(Call::Copy(number, 1), bytes)?;
        let kept = self.second.keeps(number, &playbook)?;
        add(&mut self.notes.compared().runs, kept.len());
        let heap = self.notes.tally.heap;
        for (state, is_kept) in kept.iter().enumerate() {
            if !*is_kept {
                let what = format!(in heap;
                    "rule {number} ({rule}): the playbook from state {state} does not meet it"
                )?;
                self.notes.differs(&what)?;
            }
        }
        Ok(())
    }

    // Writes the rules.
    fn write(&mut self, rules: &[Rule]) -> Result<(), AllocError> {
        for rule in rules {
            self.call(Call::from(*rule), 0)?;
            add(&mut self.notes.compared().rules, 1);
        }
        Ok(())
    }

    // The marks of a settled rule, and its playbook if it has one.
    fn settled(&mut self, number: u8) -> Result<(), AllocError> {
        self.marks(number)?;
        match self.second.rule(number) {
            Some(rule) if rule.is_playable() => self.playbook(number, rule),
            _ => Ok(()),
        }
    }

    // Writes the rules, settles all that stand, and compares marks, rounds and playbooks at the end.
    pub fn judge(&mut self, rules: &[Rule]) -> Result<(), AllocError> {
        self.write(rules)?;
        let standing = self.second.standing.len();
        for rule in (0..32u8).take(standing) {
            self.rounds(rule)?;
        }
        for rule in (0..32u8).take(standing) {
            self.settled(rule)?;
        }
        Ok(())
    }

    // Erases so many rules.
    fn erase(&mut self, many: usize) -> Result<(), AllocError> {
        for _ in 0..many {
            self.call(Call::Erase, 0)?;
        }
        Ok(())
    }

    // Both judges by the rules, and then by others in place of the last ones.
    fn examine(&mut self, rules: &[Rule], others: &[Rule]) -> Result<(), AllocError> {
        self.judge(rules)?;
        if !others.is_empty() {
            self.erase(others.len())?;
            self.judge(others)?;
        }
        Ok(())
    }
}

// Compares both judges on the game. Gives the game back, with what the second judge says of the rules.
pub fn examine<G: Game + Drop>(
    notes: Notes<'_>,
    game: G,
    rules: &[Rule],
    others: &[Rule],
) -> Result<(G, Vec<Standing>), AllocError> {
    add(&mut notes.tally.compared.boards, 1);
    let mut bench = Bench::open(notes, game)?;
    let done = bench.examine(rules, others);
    let closed = bench.close();
    done?;
    Ok(closed)
}
