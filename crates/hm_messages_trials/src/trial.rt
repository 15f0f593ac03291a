//! Trials: checks whether a definition has a type if a hole replaces a part of its source.
ghost use Rattle.std.specs.Prelude.{◌≡◌, ◌≤◌, ◌∷◌, IfOk, IfSome, Contains, All, length, map, true};
ghost use Rattle.std.specs.Arc.{arc_value};
ghost use Rattle.hm_names.specs.Imports.{AreImportsOf};
ghost use Rattle.hm_verdicts.specs.Outcomes.{verdict_of};
ghost use Rattle.hm_run_sources.specs.SourceModules.{HasModules};
ghost use Rattle.hm_messages_trials.specs.TypedSources.{AreTyped, HasTypesIn, IsElsewhere, IsModuleIn};
ghost use Rattle.hm_messages_changes.specs.Holes.{with_hole};
ghost use Rattle.hm_messages_trials.specs.Signatures.{IsGood, IsGoodIn};

use crate::costs::COST_OF_TRIAL;
use hm_check::{CheckFault, check_module_within};
use hm_lex::{LexFault, lex};
use hm_messages_changes::with_hole;
use hm_messages_types::Question;
use hm_names::{Fault, Kind, TypeLimits};
use hm_parse::{ParseFault, parse};
use hm_syntax::Module;
use hm_verdicts::{Outcome, Verdict};
use std::alloc::{AllocError, Global};
use std::sync::Arc;

/// The most levels of a type in a trial.
const MOST_LEVELS: usize = 1 << 12;

/// The number of nodes that types may have in a trial, for each unit of its cost.
const NODES_PER_UNIT: usize = 2;

// Why: docs/DECISIONS.md, "Types in a trial".
/// Returns how large types may grow in a trial. The levels are few, because a trial runs on a stack that is sized for trees. The nodes are as many as a trial
/// pays for, so those of all trials of a run have a bound.
fn limits_of(source: &[u8]) -> TypeLimits {
    TypeLimits {
        levels: MOST_LEVELS,
        nodes: source
            .len()
            .saturating_add(COST_OF_TRIAL)
            .saturating_mul(NODES_PER_UNIT),
    }
}

/// Returns the modules that a source spells, or `None` if it spells none.
fn modules_in(alloc: Global, source: &[u8]) -> Result<Option<Vec<Module>>, AllocError>
    ensures { IfOk result (λ found. IfSome found (λ modules. HasModules source.now modules.items)) }
{
    let tokens = match lex(alloc, source) {
        Ok(tokens) => tokens,
        Err(LexFault::Memory) => return Err(AllocError),
        Err(_) => return Ok(None),
    };
    match parse(alloc, source, tokens.as_slice()) {
        Ok(modules) => Ok(Some(modules)),
        Err(ParseFault::Memory) => Err(AllocError),
        Err(_) => Ok(None),
    }
}

/// Returns the first of these modules with this name.
fn first_named(modules: Vec<Module>, name: &str) -> Option<Module>
    ensures among { IfSome result (λ m. Contains modules.items m) }
    ensures named { IfSome result (λ m. m.header.name.text ≡ name.now) }
{
    for module in modules {
        if module.header.name.as_str() == name {
            return Some(module);
        }
    }
    None
}

/// Returns the first module with this name that a source spells.
///
/// # Errors
///
/// Memory ran out.
pub fn module_in(alloc: Global, source: &[u8], name: &str) -> Result<Option<Module>, AllocError>
    ensures { IfOk result (λ found. IfSome found (IsModuleIn source.now name.now)) }
{
    match modules_in(alloc, source)? {
        Some(modules) => Ok(first_named(modules, name)),
        None => Ok(None),
    }
}

/// Returns the outcome of the module of a question in a changed source, or `None` if the source spells no such module, or one with other
/// imports.
pub fn judged(
    alloc: Global,
    question: &Question<'_>,
    changed: &[u8],
) -> Result<Option<Outcome>, AllocError>
    ensures spelled { IfOk result (λ found. IfSome found (λ o. IsModuleIn changed.now question.now.name.now o.«module»)) }
    ensures imports { IfOk result (λ found. IfSome found (λ o. o.imports ≡ map arc_value question.now.imports.now)) }
    ensures of_imports { IfOk result (λ found. IfSome found (λ o. AreImportsOf o.«module» (map arc_value question.now.imports.now))) }
{
    let Some(module) = module_in(alloc, changed, question.name)? else {
        return Ok(None);
    };
    let module = Arc::new(alloc, module)?;
    match check_module_within(
        alloc,
        question.prelude,
        &module,
        question.imports,
        limits_of(changed),
    ) {
        Ok(outcome) => Ok(Some(outcome)),
        Err(CheckFault::Imports) => Ok(None),
        Err(CheckFault::Memory) => Err(AllocError),
    }
}

/// Returns whether a name is none of these.
fn is_none_of(names: &[&str], name: &str) -> bool
    ensures { result ≡ true → All (λ n. ¬ (n.now ≡ name.now)) names.now }
{
    names.iter().all(|other| *other != name)
}

/// Returns whether a fault is a type fault with none of these names.
fn is_elsewhere(fault: &Fault, definition: &str, others: &[&str]) -> bool
    ensures { result ≡ true → IsElsewhere (definition.now ∷ map (λ n. n.now) others.now) fault.now }
{
    if fault.kind != Kind::Untyped {
        return false;
    }
    let name = fault.name.as_str();
    if name == definition {
        return false;
    }
    is_none_of(others, name)
}

/// Returns whether all faults are type faults with none of these names.
fn are_elsewhere(faults: &[Fault], definition: &str, others: &[&str]) -> bool
    ensures { result ≡ true → All (IsElsewhere (definition.now ∷ map (λ n. n.now) others.now)) faults.now }
{
    faults
        .iter()
        .all(|fault| is_elsewhere(fault, definition, others))
}

/// Returns whether a verdict is good, or has only type faults with none of these names.
fn are_typed(verdict: &Verdict, definition: &str, others: &[&str]) -> bool
    ensures { result ≡ true → AreTyped (definition.now ∷ map (λ n. n.now) others.now) (verdict_of verdict.now) }
{
    match verdict {
        Verdict::Good(_) => true,
        Verdict::Faulty(found) => are_elsewhere(found.as_slice(), definition, others),
    }
}

/// Returns whether the module is good in a changed source, or has only type faults, none of them with the name of the definition or of the
/// others. Returns `false` if the source can't be read.
pub fn has_types_in(
    alloc: Global,
    question: &Question<'_>,
    changed: &[u8],
    definition: &str,
    others: &[&str],
) -> Result<bool, AllocError>
    ensures { IfOk result (λ yes. yes ≡ true → HasTypesIn changed.now question.now.name.now (map arc_value question.now.imports.now)
        (definition.now ∷ map (λ n. n.now) others.now)) }
{
    match judged(alloc, question, changed)? {
        Some(outcome) => Ok(are_typed(outcome.verdict(), definition, others)),
        None => Ok(false),
    }
}

/// Does what `has_types_in` does, for the source with the hole in place of a range of its bytes.
pub(crate) fn types_without(
    alloc: Global,
    question: &Question<'_>,
    part: (usize, usize),
    definition: &str,
    others: &[&str],
) -> Result<bool, AllocError>
    requires ordered { part.0 ≤ part.1 }
    requires within { part.1 ≤ length question.now.source.now }
    ensures { IfOk result (λ yes. yes ≡ true → HasTypesIn (with_hole question.now.source.now part.0 part.1) question.now.name.now
        (map arc_value question.now.imports.now) (definition.now ∷ map (λ n. n.now) others.now)) }
{
    let (from, to) = part;
    let changed = with_hole(alloc, question.source, from, to)?;
    Ok(has_types_in(alloc, question, changed.as_slice(), definition, others)?)
}

/// Returns whether a verdict is good.
fn is_good(verdict: &Verdict) -> bool
    ensures { result ≡ true → IsGood (verdict_of verdict.now) }
{
    match verdict {
        Verdict::Good(_) => true,
        Verdict::Faulty(_) => false,
    }
}

/// Returns whether the module of a question is good in a changed source.
pub(crate) fn is_good_in(
    alloc: Global,
    question: &Question<'_>,
    changed: &[u8],
) -> Result<bool, AllocError>
    ensures { IfOk result (λ yes. yes ≡ true → IsGoodIn changed.now question.now.name.now (map arc_value question.now.imports.now)) }
{
    match judged(alloc, question, changed)? {
        Some(outcome) => Ok(is_good(outcome.verdict())),
        None => Ok(false),
    }
}
