// A playbook played on the game against every reply.
use crate::division::mask;
use crate::judged::{Mark, Parts};
use crate::layout::Layout;
use crate::places::{at, put};
use crate::words::{Goal, Kind, Rule};
use std::alloc::{AllocError, Global};

// Where a playbook's choice leads from each state, once for each reply.
#[derive(Drop)]
pub struct Runs {
    heap: Global,
    leads: Vec<Vec<u8>>,
}

impl Runs {
    pub fn of(
        heap: Global,
        layout: &Layout,
        group: u8,
        playbook: &[u32],
    ) -> Result<Runs, AllocError> {
        let leads = (0..layout.states).map(|_| Vec::new(heap));
        let mut runs = Runs {
            heap,
            leads: leads.collect(heap)?,
        };
        for step in layout.steps.iter() {
            let choice = at(playbook, step.state as usize, 0);
            if step.vector & mask(group) == choice {
                runs.lead(step.state, step.next)?;
            }
        }
        Ok(runs)
    }

    fn lead(&mut self, state: u8, next: u8) -> Result<(), AllocError> {
        if let Some(lead) = self.leads.get_mut(state as usize) {
            lead.push(next)?;
        }
        Ok(())
    }

    // Where the steps from the state lead.
    fn from(&self, state: u8) -> &[u8] {
        self.leads
            .get(state as usize)
            .map_or(&[], |lead| lead.as_slice())
    }

    // The playbook names a choice of the state: some vector holds it.
    pub fn goes_on(&self, state: u8) -> bool {
        !self.from(state).is_empty()
    }

    // Each step from the state leads into r.
    fn next(&self, state: u8, parts: Parts<'_>) -> bool {
        self.from(state).iter().all(|next| parts.r(*next))
    }

    // The state alone.
    fn alone(&self, state: u8) -> Result<Vec<bool>, AllocError> {
        let mut here = vec![in self.heap; false; self.leads.len()]?;
        put(&mut here, state as usize, true);
        Ok(here)
    }

    // One step of all runs that have not come to s: where they are then, or None if one is outside r.
    fn step(&self, here: &[bool], parts: Parts<'_>) -> Result<Option<Vec<bool>>, AllocError> {
        let mut there = vec![in self.heap; false; here.len()]?;
        for (state, at) in (0..=u8::MAX).zip(here.iter()) {
            if *at && !parts.s(state) {
                if !parts.r(state) {
                    return Ok(None);
                }
                spread(self.from(state), &mut there);
            }
        }
        Ok(Some(there))
    }

    // Each run from the state comes to s within so many steps, by way of r.
    fn until(&self, state: u8, steps: u16, parts: Parts<'_>) -> Result<bool, AllocError> {
        let mut here = self.alone(state)?;
        for _ in 0..steps {
            let Some(there) = self.step(&here, parts)? else {
                return Ok(false);
            };
            here = there;
        }
        let mut ends = (0..=u8::MAX).zip(here.iter());
        Ok(ends.all(|(state, at)| !*at || parts.s(state)))
    }

    // No run from the state comes to where neither holds before it comes to s.
    fn unless(&self, state: u8, parts: Parts<'_>) -> Result<bool, AllocError> {
        let mut here = self.alone(state)?;
        for _ in 0..257 {
            let Some(there) = self.step(&here, parts)? else {
                return Ok(false);
            };
            if !grows(&mut here, &there) {
                return Ok(true);
            }
        }
        Ok(false)
    }

    // Each run from the state meets the rule, an until in the steps that its mark promises.
    pub fn meet(
        &self,
        rule: Rule,
        state: u8,
        mark: Mark,
        parts: Parts<'_>,
    ) -> Result<bool, AllocError> {
        match (rule.kind, mark.number) {
            (Kind::Can(Goal::Next), _) => Ok(self.next(state, parts)),
            (Kind::Can(Goal::Until), Some(steps)) => self.until(state, steps, parts),
            (Kind::Can(Goal::Unless), _) => self.unless(state, parts),
            _ => Ok(false),
        }
    }
}

// Adds the states.
fn spread(states: &[u8], to: &mut [bool]) {
    for state in states {
        put(to, *state as usize, true);
    }
}

// Adds the flags. Whether there were new ones.
fn grows(flags: &mut [bool], more: &[bool]) -> bool {
    let mut grown = false;
    for (flag, new) in flags.iter_mut().zip(more) {
        grown = grown || (*new && !*flag);
        *flag = *flag || *new;
    }
    grown
}
