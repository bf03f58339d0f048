// The table of rules: what each call does to it.
ghost use Rattle.std.specs.Prelude.{◌≡◌, ◌<◌, ◌≤◌, length, MatchResult};
ghost use Rattle.game.specs.Structure.{Structure};
ghost use Rattle.refusal.specs.declared.Refusal.TheVariants.{NoRule};
ghost use Rattle.table.specs.Parts.{waits};
ghost use Rattle.table.specs.Answers.{taken, number_if, write_answer, write_after, erase_answer, erase_after, round_answer, round_after, ask_answer, tell_answer};
ghost use Rattle.table.specs.Shows.{rule_at, Does, Answers, FewRounds};
ghost use Rattle.table.specs.Steps.{ask_table, tell_table, admitted, Wrote, erase_table, Erased, settled_in, due_table, YesArray, PartsOf};

use crate::types::{Parts, Rule, Table};
use atl::{Kind, Shown};
use game::Game;
use refusal::Refusal;

impl Table {
    pub fn empty() -> Table
        ensures count { result.count ≡ 0 }
        ensures long { length result.rules ≡ 32 }
    {
        Table {
            rules: [Rule::fresh(Kind::Label, 0, 0, 0); 32],
            count: 0,
        }
    }

    // The rule of this number.
    pub(crate) fn find(&self, number: u8) -> Result<&Rule, Refusal>
        ensures { MatchResult result (λ y. (number < self.now.count) × (y.now ≡ rule_at self.now.rules number)) (λ e. (self.now.count ≤ number) × (e ≡ NoRule)) }
    {
        if number < self.count {
            Ok(&self.rules[number as usize])
        } else {
            Err(Refusal::NoRule)
        }
    }

    // By the number of states, which `ask` has from its game: what is read here is the table's own.
    fn read(&self, states: u16, rule: u8, state: u8) -> Result<Shown, Refusal>
        ensures { result ≡ ask_table states self.now rule state }
    {
        let rule = self.find(rule)?;
        if u16::from(state) >= states {
            return Err(Refusal::NoState);
        }
        Ok(rule.marks[state as usize].into())
    }

    // The rounds, which are told of any rule, and whether it is settled.
    fn progress(&self, rule: u8) -> Result<(u16, bool), Refusal>
        ensures { result ≡ tell_table self.now rule }
    {
        let condition = self.find(rule)?.condition;
        Ok((condition.rounds(), condition.is_settled()))
    }

    // The rule to be written, or why it is refused. The four numbers of a write go on one by one: they become a rule here.
    fn admit(&self, players: u8, kind: u8, group: u8, r: u8, s: u8) -> Result<Rule, Refusal>
        ensures { result ≡ admitted (taken players self.now.count kind group r s) group r s }
    {
        if self.count == 32 {
            return Err(Refusal::Full);
        }
        let kind = Kind::try_from(kind).map_err(|_| Refusal::NoKind)?;
        let rule = Rule::fresh(kind, group, r, s);
        if rule.lacks_group(players) {
            return Err(Refusal::NoGroup);
        }
        if rule.lacks_part(self.count) {
            return Err(Refusal::NoPart);
        }
        Ok(rule)
    }

    fn enter(&mut self, players: u8, kind: u8, group: u8, r: u8, s: u8) -> Result<u8, Refusal>
        ensures answer { result ≡ number_if self.old.count (taken players self.old.count kind group r s) }
        ensures table { Wrote self.old self.new group r s (taken players self.old.count kind group r s) }
    {
        let rule = self.admit(players, kind, group, r, s)?;
        let number = self.count;
        self.rules[number as usize] = rule;
        self.count += 1;
        Ok(number)
    }

    fn pop(&mut self) -> Result<u8, Refusal>
        ensures answer { result ≡ erase_table self.old.count }
        ensures table { Erased self.old self.new result }
    {
        if self.count == 0 {
            return Err(Refusal::NoRule);
        }
        self.count -= 1;
        Ok(self.count)
    }

    fn is_settled(&self, rule: u8) -> bool
        ensures { result ≡ settled_in self.now rule }
    {
        self.find(rule)
            .is_ok_and(|rule| rule.condition.is_settled())
    }

    // Whether a part has yet to settle.
    fn part_waits(&self, rule: &Rule) -> bool
        ensures { result ≡ waits (settled_in self.now) rule.now.kind rule.now.r rule.now.s }
    {
        let waits_r = rule.uses_r() && !self.is_settled(rule.r);
        let waits_s = rule.uses_s() && !self.is_settled(rule.s);
        waits_r || waits_s
    }

    // A match, since under `map_or` the proof does not see the two cases.
    fn yes_states(&self, rule: u8) -> [bool; 256]
        ensures { YesArray self.now rule result }
    {
        match self.find(rule) {
            Ok(rule) => rule.yes_states(),
            Err(_) => [false; 256],
        }
    }

    pub(crate) fn parts(&self, rule: &Rule) -> Parts
        ensures { PartsOf self.now rule.now result }
    {
        Parts {
            r: self.yes_states(rule.r),
            s: self.yes_states(rule.s),
        }
    }

    // What a round of the rule works over, or why it is not due.
    fn due(&self, rule: u8) -> Result<Parts, Refusal>
        ensures { MatchResult result (λ parts. (due_table self.now rule ≡ Ok tt) × PartsOf self.now (rule_at self.now.rules rule) parts) (λ e. due_table self.now rule ≡ Err e) }
    {
        let rule = self.find(rule)?;
        if self.part_waits(rule) {
            return Err(Refusal::PartUnsettled);
        }
        if rule.condition.is_settled() {
            return Err(Refusal::AlreadySettled);
        }
        Ok(self.parts(rule))
    }

    // The calls, over any game whose rules these are.
    pub fn write<G: Game>(
        &mut self,
        game: &G,
        kind: u8,
        group: u8,
        r: u8,
        s: u8,
    ) -> Result<u8, Refusal>
        ensures { Does (G.Game.meaning game.now) (write_answer (G.Game.meaning game.now) kind group r s) (write_after (G.Game.meaning game.now) kind group r s) self.old self.new result }
    {
        let players = game.players();
        self.enter(players, kind, group, r, s)
    }

    pub fn erase(&mut self) -> Result<u8, Refusal>
        ensures { (m : Structure) → Does m erase_answer erase_after self.old self.new result }
    {
        self.pop()
    }

    pub fn round<G: Game>(&mut self, game: &G, rule: u8) -> Result<u16, Refusal>
        ensures { Does (G.Game.meaning game.now) (round_answer (G.Game.meaning game.now) rule) (round_after (G.Game.meaning game.now) rule) self.old self.new result }
    {
        let parts = self.due(rule)?;
        Ok(self.rules[rule as usize].round(game, parts))
    }

    pub fn ask<G: Game>(&self, game: &G, rule: u8, state: u8) -> Result<Shown, Refusal>
        ensures { Answers (G.Game.meaning game.now) (ask_answer (G.Game.meaning game.now) rule state) self.now result }
    {
        let (states, _) = game.states();
        self.read(states, rule, state)
    }

    pub fn tell(&self, rule: u8) -> Result<(u16, bool), Refusal>
        ensures answer { (m : Structure) → Answers m (tell_answer m rule) self.now result }
        ensures few { (m : Structure) → FewRounds m self.now result }
    {
        self.progress(rule)
    }
}
