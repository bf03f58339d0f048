// The five answers of a filed book, compared with what the book was made from.
use crate::content::{Content, Page};
use crate::layout::vector_at;
use crate::places::at;
use crate::tally::{Notes, add};
use crate::words::Rule;
use book::{FiledBook, RuleField};
use game::Game;
use std::alloc::AllocError;

fn count_of(page: &Page, player: u8) -> u8 {
    player
        .checked_sub(1)
        .map_or(0, |place| at(&page.counts, place as usize, 0))
}

// At a state that a byte names: the labels and the moves, of a state that there is not 0.
fn is_page(filed: &FiledBook<'_>, state: u8, page: Option<&Page>) -> bool {
    filed.labels(state) == page.map_or(0, |page| page.labels)
        && (0..9u8).all(|player| {
            filed.moves(player, state) == page.map_or(0, |page| count_of(page, player))
        })
}

// Players, states, and what there is at each state.
fn is_told(filed: &FiledBook<'_>, content: &Content) -> bool {
    filed.players() == content.players
        && filed.states() == (content.states, content.start)
        && (0..=u8::MAX).all(|state| is_page(filed, state, content.pages.get(state as usize)))
}

// Each vector leads where it should.
fn leads(filed: &FiledBook<'_>, content: &Content, state: u8, page: &Page) -> bool {
    let mut places = (0..u32::MAX).zip(page.nexts.iter());
    places.all(|(place, next)| {
        let vector = vector_at(content.players, page.counts, place);
        filed.next(state, vector) == Some(*next)
    })
}

// What is near a vector and none itself leads nowhere: a move 0, one move too many, a player too many.
// A loop and no chain: the weight goes on from count to count.
fn leads_nowhere(filed: &FiledBook<'_>, content: &Content, state: u8, page: &Page) -> bool {
    let first = vector_at(content.players, page.counts, 0);
    let mut weight: u32 = 1;
    for count in page.counts.iter().take(content.players as usize) {
        let under = first.wrapping_sub(weight);
        let over = first.wrapping_add(weight.wrapping_mul(u32::from(*count)));
        if filed.next(state, under).is_some() || filed.next(state, over).is_some() {
            return false;
        }
        weight = weight.wrapping_mul(16);
    }
    let beyond = first.wrapping_add(weight);
    filed.next(state, 0).is_none() && filed.next(state, beyond).is_none()
}

fn is_rule(told: RuleField, rule: Rule) -> bool {
    [told.kind, told.group, told.r, told.s] == <[u8; 4]>::from(rule)
}

fn rules_told(filed: &FiledBook<'_>, content: &Content) -> bool {
    let told = filed.rules();
    let mut rules = content.rules.iter().enumerate();
    told.len() == content.rules.len()
        && told.get(content.rules.len()).is_none()
        && rules.all(|(k, rule)| told.get(k).is_some_and(|told| is_rule(told, *rule)))
}

// Compares what a filed book answers with its content.
pub fn compare_answers(
    notes: &mut Notes<'_>,
    filed: &FiledBook<'_>,
    content: &Content,
) -> Result<(), AllocError> {
    notes.demand(is_told(filed, content), "players, states, labels or moves")?;
    notes.demand(rules_told(filed, content), "the rules told")?;
    for (state, page) in (0..=u8::MAX).zip(content.pages.iter()) {
        notes.demand(leads(filed, content, state, page), "where a vector leads")?;
        let nowhere = leads_nowhere(filed, content, state, page);
        notes.demand(nowhere, "a number that is no vector leads somewhere")?;
        add(&mut notes.tally.compared.answers, page.nexts.len());
    }
    if let Ok(state) = u8::try_from(content.states) {
        notes.demand(
            filed.next(state, 0x11).is_none(),
            "a missing state leads somewhere",
        )?;
    }
    Ok(())
}
