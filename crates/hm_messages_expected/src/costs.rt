//! The costs of trials.

use hm_messages_outline::{Lexed, Outline};
use hm_messages_trials::cost_of;
use hm_parse_grammar::Symbol;

/// The most lists of declarations that a name is in. The definitions of each are copied.
const MOST_LISTS: usize = 16;

/// The cost of a definition that is put in, beside that of a trial.
const COST_OF_DEFINITION: usize = 1 << 6;

/// Returns whether a list of declarations begins after a brace here, and has a token.
fn is_list_around(outline: &Outline, brace: usize, token: usize) -> bool {
    if !outline.symbol(brace).is(Symbol::LeftBrace) || outline.closing(brace) <= token {
        return false;
    }
    match outline.symbol(brace.saturating_sub(1)) {
        Symbol::Let | Symbol::Where => true,
        _ => false,
    }
}

/// Returns how many lists of declarations a token is in.
fn lists_around(outline: &Outline, token: usize) -> usize {
    let mut lists = 0usize;
    for brace in 0..token {
        if is_list_around(outline, brace, token) {
            lists = lists.saturating_add(1);
        }
    }
    lists
}

/// Returns the cost of the trial of a source with so many more definitions and copies of those that a token is in, or `None` if the token is in too many lists.
pub(crate) fn cost_at(lexed: &Lexed<'_>, token: usize, definitions: usize) -> Option<usize> {
    let lists = lists_around(lexed.outline, token);
    if lists > MOST_LISTS {
        return None;
    }
    let beside = definitions.saturating_mul(COST_OF_DEFINITION);
    let cost = cost_of(lexed.source, lexed.outline).saturating_mul(lists);
    Some(cost.saturating_add(beside))
}
