//! Patterns.

ghost use Rattle.std.specs.Prelude.{◌≡◌, ◌↔◌, IsTrue};
ghost use Rattle.hm_syntax.specs.Lists.{patterns};

use crate::names::{is_same_literal, is_same_name};
use hm_syntax::{Pat, PatKind};

/// Returns whether two patterns are the same.
#[cycle(pats)]
#[tactic(auto, using(crate::proofs::Falls::pattern_falls, crate::proofs::SameRows::patterns_same))]
pub(crate) fn is_same_pattern(pat: &Pat, other: &Pat) -> bool
    ensures { IsTrue result ↔ (pat.now ≡ other.now) }
{
    match (&pat.kind, &other.kind) {
        (PatKind::Var(name), PatKind::Var(with)) => is_same_name(name, with),
        (PatKind::Bound(name, inner), PatKind::Bound(with, under)) => {
            is_same_name(name, with) && is_same_pattern(inner, under)
        }
        (PatKind::Con(name, args), PatKind::Con(with, others)) => {
            is_same_name(name, with) && are_same_patterns(args, others)
        }
        (PatKind::Literal(literal), PatKind::Literal(with)) => is_same_literal(literal, with),
        (PatKind::Wild, PatKind::Wild) => true,
        (PatKind::Tuple(parts), PatKind::Tuple(others)) => are_same_patterns(parts, others),
        (PatKind::List(elements), PatKind::List(others)) => are_same_patterns(elements, others),
        (PatKind::Lazy(inner), PatKind::Lazy(with)) => is_same_pattern(inner, with),
        _ => false,
    }
}

/// Returns whether two rows of patterns are the same.
#[cycle(pats)]
#[tactic(auto, using(crate::proofs::Falls::pattern_falls, crate::proofs::SameRows::patterns_same))]
pub(crate) fn are_same_patterns(lefts: &[Pat], rights: &[Pat]) -> bool
    ensures { IsTrue result ↔ (patterns lefts.now ≡ patterns rights.now) }
{
    if lefts.len() != rights.len() {
        return false;
    }
    'row: for i in 0..lefts.len() {
        if !is_same_pattern(&lefts[i], &rights[i]) {
            return false;
        }
    }
    true
}
