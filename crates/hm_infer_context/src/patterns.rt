//! Matches patterns against types.

ghost use Rattle.std.specs.Prelude.{◌≡◌, ℕ, ◌+◌, ◌<◌, ◌^◌, [], ◌∷◌, length, cond, false};
ghost use Rattle.hm_types.specs.Shape.{type_of};
ghost use Rattle.hm_types.specs.Types.{put, Var as leaf};
ghost use Rattle.hm_types.specs.Monotypes.{var};
ghost use Rattle.hm_syntax.specs.Lists.{patterns};
ghost use Rattle.hm_typing.specs.Syntax.{pattern_names, patterns_names};
ghost use Rattle.hm_typing.specs.Patterns.{Matches, MatchesAll, Instantiates};
ghost use Rattle.hm_typing.specs.Programs.{monotype_of};
ghost use Rattle.hm_unify.specs.WellFormed.{IsWellFormed};
ghost use Rattle.hm_infer_context.specs.Problems.{monotype, Answers};
ghost use Rattle.hm_typing.specs.Names.{Identifier};
ghost use Rattle.hm_typing.specs.Schemes.{Monotype};
ghost use Rattle.hm_infer_context.specs.PartTypes.{is_one, first_of};
ghost use Rattle.hm_infer_context.specs.ConstructorParts.{AreGivenTypes, put_types, type_among};
ghost use Rattle.hm_infer_context.specs.Patterns.{Matched, AreGiven, HaveTypes, from_number};
ghost use Rattle.hm_names.specs.Syntax.{name_of, pattern_of, patterns_of};
ghost use Rattle.hm_infer_context.specs.Constructors.{known_of};

use crate::constructors::Constructors;
use crate::parts::{constructor_parts, list_part, tuple_parts};
use crate::unifying::equate;
use crate::variables::Variables;
use hm_names_keys::key_of;
use hm_syntax::{Name, Pat, PatKind};
use hm_types::Ty;
use hm_unify::{Solver, UnifyFault};

/// The variables that are the types of a pattern's parts: those from a number on, or one for all
/// parts.
#[derive(Clone, Copy)]
pub enum PartTypes {
    Row(usize),
    One(usize),
}

impl PartTypes {
    /// Returns the number of the variable that is the type of a part.
    pub fn at(self, part: usize) -> usize
        requires { cond (is_one self) (first_of self) (first_of self + part) < 2 ^ 64 }
        ensures { result ≡ cond (is_one self) (first_of self) (first_of self + part) }
    {
        match self {
            PartTypes::Row(first) => first + part,
            PartTypes::One(number) => number,
        }
    }
}

/// Adds a variable of a pattern. If there is one with the same name, makes their types equal.
fn add_variable<'a>(
    solver: &mut Solver,
    variables: &mut Variables<'a>,
    name: &'a Name,
    t: &Ty,
) -> Result<(), UnifyFault>
    requires given { IsWellFormed solver.old.given (type_of t.now) }
    requires variables { AreGiven solver.old.given variables.old }
    ensures { Matched (λ ρ r. put r (monotype (type_of t.now))
        ≡ ρ (name_of name.now)) (name_of name.now ∷ []) solver.old variables.old solver.new variables.new result }
{
    solver.well_formed();
    match variables.find(name) {
        None => {
            let own = t.copy(variables.allocator())?;
            variables.add(key_of(name), own)?;
            Ok(())
        }
        Some(u) => {
            let known = u.copy(variables.allocator())?;
            let own = u.copy(variables.allocator())?;
            equate(solver, t, own)?;
            variables.add(key_of(name), known)?;
            Ok(())
        }
    }
}

/// Matches a pattern against a type, and adds its variables.
///
/// # Errors
///
/// `Clash` if the pattern can't have the type, and `Memory` if memory ran out.
#[cycle(matching)]
pub fn match_pattern<'a>(
    solver: &mut Solver,
    constructors: &Constructors,
    variables: &mut Variables<'a>,
    pattern: &'a Pat,
    t: &Ty,
) -> Result<(), UnifyFault>
    requires given { IsWellFormed solver.old.given (type_of t.now) }
    requires variables { AreGiven solver.old.given variables.old }
    requires typed { (τ : Identifier → Monotype) × HaveTypes τ variables.old }
    ensures { let p = pattern_of (known_of constructors.now) pattern.now in
        Matched (λ ρ r. Matches ρ p (put r (monotype (type_of t.now)))) (pattern_names p) solver.old variables.old solver.new variables.new result }
{
    solver.well_formed();
    let alloc = variables.allocator();
    match &pattern.kind {
        PatKind::Var(name) => add_variable(solver, variables, name, t),
        PatKind::Bound(name, inner) => {
            match_pattern(solver, constructors, variables, inner, t)?;
            add_variable(solver, variables, name, t)
        }
        PatKind::Con(name, parts) => {
            let scheme = constructors.find(alloc, name)?;
            let types = constructor_parts(alloc, solver, scheme.as_scheme(), parts.len(), t)?;
            match_row(solver, constructors, variables, parts, &types)
        }
        PatKind::Literal(literal) => {
            let own = constructors.literal_type(alloc, literal)?;
            equate(solver, t, own)
        }
        PatKind::Wild => Ok(()),
        PatKind::Tuple(parts) => {
            let first = tuple_parts(alloc, solver, parts.len(), t)?;
            match_patterns(
                solver,
                constructors,
                variables,
                parts,
                PartTypes::Row(first),
            )
        }
        PatKind::List(parts) => {
            let first = list_part(alloc, solver, t)?;
            match_patterns(
                solver,
                constructors,
                variables,
                parts,
                PartTypes::One(first),
            )
        }
        PatKind::Lazy(inner) => match_pattern(solver, constructors, variables, inner, t),
    }
}

/// Matches patterns against their types, the last first, and adds their variables.
#[cycle(matching)]
pub(crate) fn match_patterns<'a>(
    solver: &mut Solver,
    constructors: &Constructors,
    variables: &mut Variables<'a>,
    parts: &'a [Pat],
    types: PartTypes,
) -> Result<(), UnifyFault>
    requires given { (j : ℕ) → j < length parts.now → cond (is_one types) (first_of types) (first_of types + j) < solver.old.given }
    requires fits { cond (is_one types) (first_of types) (first_of types + length parts.now) < 2 ^ 64 }
    requires variables { AreGiven solver.old.given variables.old }
    requires typed { (τ : Identifier → Monotype) × HaveTypes τ variables.old }
    ensures { let ps = patterns_of (known_of constructors.now) (patterns parts.now) in
        Matched (λ ρ r. MatchesAll ρ ps (λ j. put r (from_number (is_one types) (first_of types) j)) 0) (patterns_names ps) solver.old variables.old solver.new variables.new result }
{
    solver.well_formed();
    let mut j = parts.len();
    'parts: while j > 0 {
        j -= 1;
        let number = types.at(j);
        match_pattern(solver, constructors, variables, &parts[j], &Ty::Var(number))?;
    }
    Ok(())
}

/// Matches as many patterns against types, the last first, and adds their variables.
#[cycle(matching)]
fn match_row<'a>(
    solver: &mut Solver,
    constructors: &Constructors,
    variables: &mut Variables<'a>,
    parts: &'a [Pat],
    types: &[Ty],
) -> Result<(), UnifyFault>
    requires len { length types.now ≡ length parts.now }
    requires given { AreGivenTypes solver.old.given types.now }
    requires variables { AreGiven solver.old.given variables.old }
    requires typed { (τ : Identifier → Monotype) × HaveTypes τ variables.old }
    ensures { let ps = patterns_of (known_of constructors.now) (patterns parts.now) in
        Matched (λ ρ r. MatchesAll ρ ps (type_among (put_types r types.now)) 0) (patterns_names ps) solver.old variables.old solver.new variables.new result }
{
    solver.well_formed();
    let mut j = parts.len();
    'parts: while j > 0 {
        j -= 1;
        match_pattern(solver, constructors, variables, &parts[j], &types[j])?;
    }
    Ok(())
}
