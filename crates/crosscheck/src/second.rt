// The second judge's board: the rules that stand, each judged whole when it is written and shown as far as its rounds have gone.
ghost use Rattle.std.specs.Prelude.{◌≡◌, length, vec_len, nat_le, nat_lt, IfOk};

use crate::judged::{Judged, Mark, Parts};
use crate::layout::Layout;
use crate::places::at;
use crate::rules::everybody;
use crate::runs::Runs;
use crate::words::{Call, Kind, Rule, Said, Why};
use std::alloc::{AllocError, Global};

#[derive(Drop)]
pub struct Standing {
    pub rule: Rule,
    pub judged: Judged,
    pub rounds: u16,
}

impl Standing {
    fn is_settled(&self) -> bool
        ensures { result ≡ nat_le (vec_len self.now.judged.marked) self.now.rounds }
    {
        self.rounds as usize >= self.judged.marked.len()
    }

    // A state is open until its round has come, and one that has no number until the rule is settled.
    fn says(&self, state: u8) -> Result<Said, Why> {
        let mark = self.judged.marks.get(state as usize).ok_or(Why::NoState)?;
        let has_come = mark.number.is_some_and(|number| number < self.rounds);
        Ok(if !has_come && !self.is_settled() {
            Said::Open(None)
        } else if mark.yes {
            Said::Yes(mark.number)
        } else {
            Said::No(mark.number)
        })
    }

    // How many states the next round marks.
    fn next_marks(&self) -> Result<u16, Why> {
        self.judged
            .marked
            .get(self.rounds as usize)
            .copied()
            .ok_or(Why::Settled)
    }

    fn playbook(&self) -> Result<&[u32], Why> {
        if !self.is_settled() {
            return Err(Why::Unsettled);
        }
        self.judged.playbook.as_deref().ok_or(Why::NoPlaybook)
    }
}

#[derive(Drop)]
pub struct Second {
    heap: Global,
    pub layout: Layout,
    pub standing: Vec<Standing>,
}

impl Second {
    pub fn new(heap: Global, layout: Layout) -> Second {
        Second {
            heap,
            layout,
            standing: Vec::new(heap),
        }
    }

    fn standing(&self, rule: u8) -> Result<&Standing, Why> {
        self.standing.get(rule as usize).ok_or(Why::NoRule)
    }

    // The rule of the number.
    pub fn rule(&self, number: u8) -> Option<Rule> {
        self.standing
            .get(number as usize)
            .map(|standing| standing.rule)
    }

    fn stands(&self, rule: u8) -> bool
        ensures { result ≡ nat_lt rule (vec_len self.now.standing) }
    {
        (rule as usize) < self.standing.len()
    }

    fn has_state(&self, state: u8) -> bool
        ensures { result ≡ nat_lt state self.now.layout.states }
    {
        u16::from(state) < self.layout.states
    }

    fn marks(&self, rule: u8) -> &[Mark] {
        self.standing
            .get(rule as usize)
            .map_or(&[], |standing| standing.judged.marks.as_slice())
    }

    // The marks of the rule's parts.
    pub fn parts(&self, rule: Rule) -> Parts<'_> {
        Parts {
            r: self.marks(rule.r),
            s: self.marks(rule.s),
        }
    }

    // For each mark of a rule, from state 0, whether the playbook has a choice there, and only runs that meet the rule where it is yes.
    fn kept(&self, rule: Rule, marks: &[Mark], playbook: &[u32]) -> Result<Vec<bool>, AllocError>
        ensures { IfOk result (λ kept. length kept.items ≡ length marks.now) }
    {
        let parts = self.parts(rule);
        let runs = Runs::of(self.heap, &self.layout, rule.group, playbook)?;
        let mut kept = Vec::new(self.heap);
        for (place, mark) in marks.iter().enumerate() {
            let state = u8::try_from(place).unwrap_or(u8::MAX);
            kept.push(runs.goes_on(state) && (!mark.yes || runs.meet(rule, state, *mark, parts)?))?;
        }
        Ok(kept)
    }

    // The same of the rule of this number; nothing where none stands.
    pub fn keeps(&self, rule: u8, playbook: &[u32]) -> Result<Vec<bool>, AllocError> {
        match self.standing(rule) {
            Ok(standing) => self.kept(standing.rule, standing.judged.marks.as_slice(), playbook),
            Err(_) => Ok(Vec::new(self.heap)),
        }
    }

    fn part_settled(&self, rule: u8) -> bool {
        self.standing(rule).is_ok_and(|part| part.is_settled())
    }

    fn parts_settled(&self, rule: Rule) -> bool {
        let parts = [rule.r, rule.s];
        let mut parts = parts.iter().take(rule.kind.parts());
        parts.all(|part| self.part_settled(*part))
    }

    fn group_fits(&self, rule: Rule) -> bool {
        match rule.kind {
            Kind::Label | Kind::Not | Kind::Or => rule.group == 0,
            Kind::Can(_) | Kind::CannotHelp(_) => rule.group <= everybody(self.layout.players),
        }
    }

    fn parts_fit(&self, rule: Rule) -> bool {
        match rule.kind.parts() {
            0 => rule.r <= 15 && rule.s == 0,
            1 => self.stands(rule.r) && rule.s == 0,
            _ => self.stands(rule.r) && self.stands(rule.s),
        }
    }

    // The rule that the numbers are, if it can be written.
    fn fit(&self, numbers: [u8; 4]) -> Result<Rule, Why> {
        if self.standing.len() >= 32 {
            return Err(Why::Full);
        }
        let [kind, group, r, s] = numbers;
        let kind = Kind::try_from(kind)?;
        let rule = Rule { kind, group, r, s };
        if !self.group_fits(rule) {
            Err(Why::NoGroup)
        } else if !self.parts_fit(rule) {
            Err(Why::NoPart)
        } else {
            Ok(rule)
        }
    }

    // The number of the rule that a write would make.
    fn next_rule(&self) -> u8 {
        u8::try_from(self.standing.len()).unwrap_or(u8::MAX)
    }

    fn add(&mut self, rule: Rule) -> Result<Said, AllocError> {
        let number = self.next_rule();
        let judged = Judged::of(self.heap, &self.layout, rule, self.parts(rule))?;
        self.standing.push(Standing {
            rule,
            judged,
            rounds: 0,
        })?;
        Ok(Said::Number(number))
    }

    fn write(&mut self, numbers: [u8; 4]) -> Result<Said, AllocError> {
        match self.fit(numbers) {
            Ok(rule) => self.add(rule),
            Err(why) => Ok(Said::from(why)),
        }
    }

    fn erase(&mut self) -> Result<Said, Why> {
        self.standing.pop().ok_or(Why::NoRule)?;
        Ok(Said::Number(self.next_rule()))
    }

    fn round(&mut self, rule: u8) -> Result<Said, Why> {
        if !self.parts_settled(self.standing(rule)?.rule) {
            return Err(Why::PartUnsettled);
        }
        let standing = self.standing.get_mut(rule as usize).ok_or(Why::NoRule)?;
        let marks = standing.next_marks()?;
        standing.rounds = standing.rounds.saturating_add(1);
        Ok(Said::Marked(marks))
    }

    fn ask(&self, rule: u8, state: u8) -> Result<Said, Why> {
        self.standing(rule)?.says(state)
    }

    fn tell(&self, rule: u8) -> Result<Said, Why> {
        let standing = self.standing(rule)?;
        Ok(Said::Told(standing.rounds, standing.is_settled()))
    }

    fn play(&self, rule: u8, state: u8) -> Result<Said, Why> {
        let standing = self.standing(rule)?;
        if !self.has_state(state) {
            return Err(Why::NoState);
        }
        let playbook = standing.playbook()?;
        Ok(Said::Choice(at(playbook, state as usize, 0)))
    }

    // Four bytes for each choice from the place on, highest first.
    fn copy(&self, rule: u8, place: usize, buffer: &mut [u8]) -> Result<Said, Why> {
        let playbook = self.standing(rule)?.playbook()?;
        let bytes = 4 * self.layout.states as usize;
        let room = buffer.get_mut(place..).ok_or(Why::NoRoom)?;
        if room.len() < bytes {
            return Err(Why::NoRoom);
        }
        let written = playbook.iter().flat_map(|choice| choice.to_be_bytes());
        for (byte, new) in room.iter_mut().zip(written) {
            *byte = new;
        }
        Ok(Said::Copied(bytes))
    }

    // The answer to a call. A copy writes into the buffer.
    pub fn answer(&mut self, call: Call, buffer: &mut [u8]) -> Result<Said, AllocError> {
        let answer = match call {
            Call::Write(numbers) => return self.write(numbers),
            Call::Erase => self.erase(),
            Call::Round(rule) => self.round(rule),
            Call::Ask(rule, state) => self.ask(rule, state),
            Call::Tell(rule) => self.tell(rule),
            Call::Play(rule, state) => self.play(rule, state),
            Call::Copy(rule, place) => self.copy(rule, place, buffer),
        };
        Ok(answer.unwrap_or_else(Said::from))
    }
}
