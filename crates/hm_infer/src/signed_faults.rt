//! Finds the type faults among the bindings with signatures (Haskell 98 Report, sections 4.4.1 and
//! 4.5.1). A clause of these doesn't have the declared type, though all names in the clauses have types.

ghost use Rattle.std.specs.Prelude.{◌≡◌, ◌<◌, IfOk, OnOk, drop, length};
ghost use Rattle.std.specs.Bool.{Decides};
ghost use Rattle.hm_syntax.specs.Trees.{Declarations};
ghost use Rattle.hm_infer_dependencies.specs.Nodes.{AllShown};
ghost use Rattle.hm_infer_context.specs.Constructors.{known_of};
ghost use Rattle.hm_infer_context.specs.Environments.{AreAssumed, assumptions};
ghost use Rattle.hm_infer.specs.SignedFaults.{AreRefused, AreSignedFaults, AreWaiting, BeginsRun, HasFlag, IsFaultAt, Refuses, Waits, goes_on};
ghost use Rattle.hm_infer_expressions.specs.SignedLists.{AreSignatures};

use hm_infer_context::Inference;
use hm_infer_dependencies::{Numbers, is_continued};
use hm_infer_expressions::{CheckedList, check_signed};
use hm_infer_results::refers_to_typed;
use hm_syntax::{Decl, DeclKind};
use hm_unify::UnifyFault;
use std::alloc::{AllocError, Global};

/// Returns whether a declaration refers to a node without a type.
fn waits(
    alloc: Global,
    numbers: &Numbers,
    shown: &mut [bool],
    typed: &[bool],
    decl: &Decl,
) -> Result<bool, AllocError>
    requires shown { AllShown shown.old (length numbers.now) }
    requires typed { length typed.now ≡ length numbers.now }
    ensures shown { OnOk result (shown.new ≡ shown.old) }
    ensures told { IfOk result (λ b. Waits b numbers.now typed.now decl.now) }
{
    if refers_to_typed(alloc, numbers, shown, typed, decl)? {
        return Ok(false);
    }
    Ok(true)
}

/// Returns for each declaration whether it refers to a node without a type.
fn waiting_clauses(
    alloc: Global,
    decls: &[Decl],
    numbers: &Numbers,
    typed: &[bool],
) -> Result<Vec<bool>, AllocError>
    requires typed { length typed.now ≡ length numbers.now }
    ensures told { IfOk result (λ waiting. AreWaiting numbers.now typed.now decls.now waiting.items) }
{
    let count = numbers.len();
    let mut shown = vec![in alloc; true; count]?;
    let mut waiting = Vec::new(alloc);
    'decls: for i in 0..decls.len() {
        let is_waiting = waits(alloc, numbers, &mut shown, typed, &decls[i])?;
        waiting.push(is_waiting)?;
    }
    Ok(waiting)
}

// Why: docs/DECISIONS.md, "Bools".
/// Returns whether a clause doesn't have the declared type of its variable, under closed
/// assumptions. Leaves the assumptions as they were.
fn is_refused<'a>(
    inference: &mut Inference<'a>,
    list: &CheckedList<'_, 'a, '_>,
    decl: &'a Decl,
    is_waiting: bool,
) -> Result<bool, UnifyFault>
    requires closed { AreAssumed 0 inference.old.environment }
    ensures told { IfOk result (λ b. (all : Declarations) → AreSignatures all list.now.signatures.now
        → Refuses is_waiting b (known_of list.now.constructors.now) all (assumptions inference.old.environment) decl.now) }
    ensures same { OnOk result (inference.new.environment ≡ inference.old.environment) }
{
    if is_waiting {
        return Ok(false);
    }
    let outside = inference.environment.len();
    inference.solver = inference.solver.renewed();
    match check_signed(inference, list.constructors, list.signatures, decl) {
        Ok(()) => {
            inference.solver.has_solution();
            Ok(false)
        }
        Err(UnifyFault::Clash) => {
            inference.environment.truncate(outside);
            Ok(true)
        }
        Err(UnifyFault::Memory) => Err(UnifyFault::Memory),
    }
}

/// Returns for each declaration whether it is a clause without the declared type. Skips
/// declarations that wait. Leaves the assumptions as they were.
fn refused_clauses<'a>(
    inference: &mut Inference<'a>,
    list: &CheckedList<'_, 'a, '_>,
    waiting: &[bool],
) -> Result<Vec<bool>, UnifyFault>
    requires closed { AreAssumed 0 inference.old.environment }
    requires sized { length waiting.now ≡ length list.now.decls.now }
    ensures told { IfOk result (λ refused. (all : Declarations) → AreSignatures all list.now.signatures.now
        → AreRefused (known_of list.now.constructors.now) all (assumptions inference.old.environment) list.now.decls.now waiting.now refused.items) }
    ensures sized { IfOk result (λ refused. length refused.items ≡ length list.now.decls.now) }
{
    let decls = list.decls;
    let mut refused = Vec::new(inference.alloc);
    'decls: for i in 0..decls.len() {
        let is_refused = is_refused(inference, list, &decls[i], waiting[i])?;
        refused.push(is_refused)?;
    }
    Ok(refused)
}

/// Returns whether the next declaration continues the binding of this one.
fn continues(decls: &[Decl], place: usize) -> bool
    requires { place < length decls.now }
    ensures { result ≡ goes_on (drop place decls.now) }
{
    let decl: &Decl = &decls[place];
    let DeclKind::Clause { name, pats, rhs: _ } = &decl.kind else {
        return false;
    };
    is_continued(name, pats, &decls[place + 1..])
}

/// Returns whether a declaration continues no binding.
fn begins(decls: &[Decl], place: usize) -> bool
    requires { place < length decls.now }
    ensures { Decides result (BeginsRun decls.now place) }
{
    if place == 0 {
        return true;
    }
    !continues(decls, place - 1)
}

/// Returns whether any clause of the binding that begins at a place is flagged.
fn has_flag(decls: &[Decl], flags: &[bool], place: usize) -> bool
    requires place { place < length decls.now }
    requires sized { length flags.now ≡ length decls.now }
    ensures { Decides result (HasFlag decls.now flags.now place) }
{
    'clauses: for i in place..decls.len() {
        if flags[i] {
            return true;
        }
        if !continues(decls, i) {
            return false;
        }
    }
    false
}

/// Returns whether a faulty binding begins at a place.
fn is_fault_at(decls: &[Decl], waiting: &[bool], refused: &[bool], place: usize) -> bool
    requires place { place < length decls.now }
    requires waiting { length waiting.now ≡ length decls.now }
    requires refused { length refused.now ≡ length decls.now }
    ensures { Decides result (IsFaultAt decls.now waiting.now refused.now place) }
{
    if !begins(decls, place) {
        return false;
    }
    if has_flag(decls, waiting, place) {
        return false;
    }
    has_flag(decls, refused, place)
}

/// Returns the places of the first clauses of all faulty bindings with signatures, under closed
/// assumptions for all names that have types.
pub(crate) fn signed_faults<'a>(
    inference: &mut Inference<'a>,
    list: &CheckedList<'_, 'a, '_>,
    typed: &[bool],
) -> Result<Vec<usize>, UnifyFault>
    requires closed { AreAssumed 0 inference.old.environment }
    requires typed { length typed.now ≡ length list.now.found.now.numbers }
    ensures told { IfOk result (λ places. (all : Declarations) → AreSignatures all list.now.signatures.now
        → AreSignedFaults (known_of list.now.constructors.now) all (assumptions inference.old.environment) list.now.found.now.numbers typed.now
        list.now.decls.now places.items) }
{
    let alloc = inference.alloc;
    let decls = list.decls;
    let waiting = waiting_clauses(alloc, decls, &list.found.numbers, typed)?;
    let refused = refused_clauses(inference, list, &waiting)?;
    let mut places = Vec::new(alloc);
    'decls: for place in 0..decls.len() {
        if is_fault_at(decls, &waiting, &refused, place) {
            places.push(place)?;
        }
    }
    Ok(places)
}
