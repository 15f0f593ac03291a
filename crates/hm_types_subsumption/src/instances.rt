//! Compares schemes by generality.

ghost use Rattle.std.specs.Prelude.{◌≡◌, ℕ, ◌↔◌, ◌<◌, IfOk, IsTrue, length, true, vec_len};
ghost use Rattle.hm_types.specs.Types.{Var as leaf};
ghost use Rattle.hm_types.specs.Monotypes.{arguments_of, var};
ghost use Rattle.hm_types.specs.Shape.{type_of, types_of};
ghost use Rattle.hm_types.specs.Substitution.{listed, occurs, occurs_in_any, substitute};
ghost use Rattle.hm_types.specs.Schemes.{IsAtLeastAsGeneral, IsInstance};
ghost use Rattle.hm_types_subsumption.specs.Matching.{Matches, MatchesAll};

use hm_types::{Scheme, Ty};
use std::alloc::{AllocError, Global};

/// Returns whether every instance of `special` is an instance of `general`
/// (Damas and Milner 1982, section 3).
pub fn instance_of(alloc: Global, special: &Scheme, general: &Scheme) -> Result<bool, AllocError>
    ensures { IfOk result (λ answer. IsTrue answer ↔ IsAtLeastAsGeneral general.now special.now) }
{
    let pattern = general.body();
    let mut found = Vec::new(alloc);
    for _ in 0..general.vars() {
        found.push(None)?;
    }
    Ok(match_type(alloc, &mut found, pattern, special.body())?)
}

/// Returns the instance of a scheme with these types in place of its variables.
pub fn instantiate(alloc: Global, scheme: &Scheme, types: &[Ty]) -> Result<Ty, AllocError>
    requires { length types.now ≡ scheme.now.vars }
    ensures value { IfOk result (λ t. type_of t ≡ substitute (listed (types_of types.now)) scheme.now.body) }
    ensures instance { IfOk result (λ t. IsInstance (type_of t) scheme.now) }
{
    Ok(scheme.body().replace_all(alloc, types)?)
}

/// Finds types for the variables of a pattern that make it the target. Returns whether there are any.
#[cycle(matching)]
fn match_type(
    alloc: Global,
    found: &mut Vec<Option<Ty>>,
    pattern: &Ty,
    target: &Ty,
) -> Result<bool, AllocError>
    requires { (n : ℕ) → occurs n (type_of pattern.now) ≡ true → n < vec_len found.old }
    ensures len { vec_len found.new ≡ vec_len found.old }
    ensures matches { IfOk result (λ b. Matches b found.old.items found.new.items (type_of pattern.now) (type_of target.now)) }
{
    match pattern {
        Ty::Var(n) => match_variable(alloc, found, *n, target),
        Ty::Rigid(m) => match target {
            Ty::Rigid(n) => Ok(*m == *n),
            _ => Ok(false),
        },
        Ty::App(head, arguments) => match target {
            Ty::App(other, others) => {
                if head.is_same(other) {
                    Ok(match_types(alloc, found, arguments.as_slice(), others.as_slice())?)
                } else {
                    Ok(false)
                }
            }
            _ => Ok(false),
        },
    }
}

/// Finds the target for a variable of a pattern. Returns false if another type was found before.
fn match_variable(
    alloc: Global,
    found: &mut Vec<Option<Ty>>,
    n: usize,
    target: &Ty,
) -> Result<bool, AllocError>
    requires { n < vec_len found.old }
    ensures len { vec_len found.new ≡ vec_len found.old }
    ensures matches { IfOk result (λ b. Matches b found.old.items found.new.items (leaf (var n)) (type_of target.now)) }
{
    match &found[n] {
        Some(t) => Ok(t.is_same(target)),
        None => {
            found[n] = Some(target.copy(alloc)?);
            Ok(true)
        }
    }
}

/// Does what `match_type` does, for lists of types.
#[cycle(matching)]
fn match_types(
    alloc: Global,
    found: &mut Vec<Option<Ty>>,
    patterns: &[Ty],
    targets: &[Ty],
) -> Result<bool, AllocError>
    requires { (n : ℕ) → occurs_in_any n (arguments_of (types_of patterns.now)) ≡ true → n < vec_len found.old }
    ensures len { vec_len found.new ≡ vec_len found.old }
    ensures matches { IfOk result (λ b. MatchesAll b found.old.items found.new.items (types_of patterns.now) (types_of targets.now)) }
{
    if patterns.len() != targets.len() {
        return Ok(false);
    }
    for i in 0..patterns.len() {
        if !match_type(alloc, found, &patterns[i], &targets[i])? {
            return Ok(false);
        }
    }
    Ok(true)
}
