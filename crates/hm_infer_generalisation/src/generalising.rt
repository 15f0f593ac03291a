//! Generalises types to schemes (Damas and Milner 1982, section 5; Haskell 98 Report, section 4.5.2).

ghost use Rattle.std.specs.Prelude.{◌≡◌, ℕ, ◌+◌, length, IfOk};
ghost use Rattle.hm_types.specs.Shape.{type_of};
ghost use Rattle.hm_types.specs.Types.{Var as leaf, put};
ghost use Rattle.hm_types.specs.Schemes.{place};
ghost use Rattle.hm_types.specs.Substitution.{substitute};
ghost use Rattle.hm_typing.specs.Schemes.{Monotype};
ghost use Rattle.hm_typing.specs.Assumptions.{Assumptions, assumptions_put};
ghost use Rattle.hm_infer_context.specs.Problems.{monotype};
ghost use Rattle.hm_infer_context.specs.Environments.{scheme_in};
ghost use Rattle.hm_infer_generalisation.specs.Generalisations.{IsSolution, Keeps, IsGeneralisation};
ghost use Rattle.hm_unify.specs.Bindings.{solution};
ghost use Rattle.hm_unify.specs.Levels.{is_outer};
ghost use Rattle.hm_unify.specs.WellFormed.{IsWellFormed};
ghost use Rattle.hm_infer_generalisation.specs.Generalised.{closing, IsClosing};

use crate::collecting::{Collected, collect, none_collected};
use hm_types::{Ty, Types};
use hm_unify::Solver;
use std::alloc::{AllocError, Global};

/// Returns the sum, unless it overflows.
fn sum(a: usize, b: usize) -> Result<usize, AllocError>
    ensures { IfOk result (λ c. c ≡ a + b) }
{
    if a > usize::MAX - b {
        return Err(AllocError);
    }
    Ok(a + b)
}

/// Returns the slot of a rigid variable. These come after the others.
fn rigid_slot(slots: &Collected, n: usize) -> Result<usize, AllocError>
    ensures { IfOk result (λ k. k ≡ place n slots.now.rigid + length slots.now.plain) }
{
    sum(slots.rigid.place_of(n), slots.plain.len())
}

/// The quantified variables of a scheme: `count` variables that have slots, without those in the
/// values of the first `older` variables.
#[derive(Clone, Copy)]
struct Quantified<'q> {
    solver: &'q Solver,
    older: usize,
    slots: &'q Collected,
    count: usize,
}

/// Returns a type as the body of a scheme that quantifies these variables.
fn close(alloc: Global, quantified: &Quantified<'_>, t: &Ty) -> Result<Ty, AllocError>
    ensures { IfOk result (λ u. type_of u ≡ put (λ l. leaf (closing (is_outer quantified.now.solver.now.equations quantified.now.older) quantified.now.count
        quantified.now.slots.now.plain quantified.now.slots.now.rigid l)) (type_of t.now)) }
{
    match t {
        Ty::Var(n) => {
            if quantified.solver.is_outer_variable(quantified.older, *n) {
                return Ok(Ty::Var(sum(*n, quantified.count)?));
            }
            Ok(Ty::Var(quantified.slots.plain.place_of(*n)))
        }
        Ty::Rigid(n) => {
            if quantified.solver.is_outer_rigid(quantified.older, *n) {
                return Ok(Ty::Rigid(sum(*n, quantified.count)?));
            }
            Ok(Ty::Var(rigid_slot(quantified.slots, *n)?))
        }
        Ty::App(head, arguments) => {
            let row = arguments.as_slice();
            let mut made = Vec::with_capacity(alloc, row.len())?;
            for argument in row {
                made.push(close(alloc, quantified, argument)?)?;
            }
            Ok(Ty::App(head.copy()?, Types::new(made)))
        }
    }
}

/// A scheme. The variables of `body` below `quantified` are quantified; each other number is that
/// of a free variable plus `quantified`.
#[derive(Drop)]
pub struct Generalised {
    pub quantified: usize,
    pub body: Ty,
}

// Why: docs/DECISIONS.md, "Generalising".
/// Returns the scheme of a type under the solution. Variables in the values of the first `older`
/// variables stay free.
pub fn generalise(
    alloc: Global,
    solver: &Solver,
    older: usize,
    t: &Ty,
) -> Result<Generalised, AllocError>
    requires { IsWellFormed solver.now.given (type_of t.now) }
    ensures scheme { IfOk result (λ s. (A : Assumptions) (m : ℕ → Monotype) → IsSolution solver.now.equations m
        → Keeps (is_outer solver.now.equations older) (substitute (solution solver.now.equations) (type_of t.now)) (assumptions_put m A)
        → IsGeneralisation (assumptions_put m A) (put m (monotype (type_of t.now))) (scheme_in (record { quantified = s.quantified; body = type_of s.body }))) }
    ensures given { IfOk result (λ s. IsWellFormed (s.quantified + solver.now.given) (type_of s.body)) }
    ensures closed { IfOk result (λ s. IsClosing (is_outer solver.now.equations older) (substitute (solution solver.now.equations) (type_of t.now))
        s.quantified (type_of s.body)) }
{
    let value = solver.value(t)?;
    let mut slots = none_collected(alloc);
    collect(&mut slots, &value)?;
    let count = sum(slots.plain.len(), slots.rigid.len())?;
    let quantified = Quantified {
        solver,
        older,
        slots: &slots,
        count,
    };
    let body = close(alloc, &quantified, &value)?;
    Ok(Generalised {
        quantified: count,
        body,
    })
}
