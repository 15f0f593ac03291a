//! Opens functions before their bodies are checked: matches their patterns and adds assumptions.

ghost use Rattle.std.specs.Prelude.{◌≡◌, ◌<◌};
ghost use Rattle.hm_types.specs.Shape.{type_of};
ghost use Rattle.hm_types.specs.Types.{Var};
ghost use Rattle.hm_types.specs.Monotypes.{var};
ghost use Rattle.hm_syntax.specs.Lists.{patterns};
ghost use Rattle.hm_typing.specs.Schemes.{arrow};
ghost use Rattle.hm_typing.specs.Syntax.{pattern, no_pattern};
ghost use Rattle.hm_unify.specs.WellFormed.{IsWellFormed};
ghost use Rattle.hm_infer_context.specs.Problems.{monotype};
ghost use Rattle.hm_infer_context.specs.Environments.{AreAssumed, Extends};
ghost use Rattle.hm_infer_context.specs.Functions.{Opened, Entered};
ghost use Rattle.hm_names.specs.Syntax.{pattern_of, patterns_of};
ghost use Rattle.hm_infer_context.specs.Constructors.{known_of};

use crate::constructors::Constructors;
use crate::inference::Inference;
use crate::parts::function_parts;
use crate::patterns::{PartTypes, match_pattern, match_patterns};
use crate::variables::Variables;
use hm_syntax::Pat;
use hm_types::Ty;
use hm_unify::UnifyFault;

/// Splits the type of a function, matches its patterns, and adds assumptions about their variables.
/// Returns the number of the variable that is the type of the body.
///
/// # Errors
///
/// `Clash` if `t` can't be the type of a function with these patterns, and `Memory` if memory ran
/// out.
pub fn open_function<'a>(
    inference: &mut Inference<'a>,
    constructors: &Constructors,
    pats: &'a [Pat],
    t: &Ty,
) -> Result<usize, UnifyFault>
    requires given { IsWellFormed inference.old.solver.given (type_of t.now) }
    requires assumed { AreAssumed inference.old.solver.given inference.old.environment }
    ensures opened { Opened (patterns_of (known_of constructors.now) (patterns pats.now)) (monotype (type_of t.now)) inference.old.solver
        inference.old.environment inference.new.solver inference.new.environment result }
    ensures kept { Extends inference.old.environment inference.new.environment }
{
    let count = pats.len();
    let first = function_parts(inference.alloc, &mut inference.solver, count, t)?;
    let mut variables = Variables::new(inference.alloc);
    match_patterns(
        &mut inference.solver,
        constructors,
        &mut variables,
        pats,
        PartTypes::Row(first),
    )?;
    inference.environment.bind_variables(variables)?;
    Ok(first + count)
}

/// Matches the pattern of an alternative against the variable `first`, and adds assumptions about
/// its variables. The body of the alternative has the type `t`.
///
/// # Errors
///
/// `Clash` if the pattern can't have the type of the variable, and `Memory` if memory ran out.
pub fn open_alternative<'a>(
    inference: &mut Inference<'a>,
    constructors: &Constructors,
    pat: &'a Pat,
    first: usize,
    t: &Ty,
) -> Result<(), UnifyFault>
    requires first { first < inference.old.solver.given }
    requires given { IsWellFormed inference.old.solver.given (type_of t.now) }
    requires assumed { AreAssumed inference.old.solver.given inference.old.environment }
    ensures opened { Entered (pattern (pattern_of (known_of constructors.now) pat.now) no_pattern)
        (arrow (monotype (Var (var first))) (monotype (type_of t.now))) (type_of t.now) inference.old.solver inference.old.environment
        inference.new.solver inference.new.environment result }
    ensures kept { Extends inference.old.environment inference.new.environment }
{
    let mut variables = Variables::new(inference.alloc);
    match_pattern(
        &mut inference.solver,
        constructors,
        &mut variables,
        pat,
        &Ty::Var(first),
    )?;
    inference.environment.bind_variables(variables)?;
    Ok(())
}
