//! Makes a fault for each unit without a type, named after its first binding (Haskell 98 Report, section 4.5.1).

ghost use Rattle.std.specs.Prelude.{◌≡◌, ◌<◌, ◌++◌, All, IfOk, OnOk, List, length, option_map};
ghost use Rattle.hm_syntax.specs.Lists.{patterns};
ghost use Rattle.hm_typing.specs.Names.{Identifier as UnitName};
ghost use Rattle.hm_names.specs.ModuleCores.{ModuleCore};
ghost use Rattle.hm_names.specs.Untyped.{AreToldAs, bare, first_text};
ghost use Rattle.hm_names.specs.Variables.{pattern_variables, patterns_variables};
ghost use Rattle.hm_names.specs.Faults.Phases.{fault};
ghost use Rattle.hm_names.specs.declared.faults.Kind.TheVariants.{Untyped};
ghost use Rattle.hm_infer.specs.Told.{AreStartsOf, faults_told, leading, told_name};

use hm_lex::Place;
use hm_names::{Fault, Kind, sort_faults};
use hm_syntax::{Decl, DeclKind, Name, Pat, PatKind, Row};
use hm_types::Text;
use std::alloc::{AllocError, Global};

// Why: docs/DECISIONS.md, "Names of type faults".
/// Returns the first variable of a pattern.
#[cycle(first_variables)]
#[tactic(auto, using(crate::proofs::FaultsTold::pattern_falls))]
fn first_variable(pat: &Pat) -> Option<&Name>
    ensures { option_map (λ n. n.now) result ≡ leading (pattern_variables pat.now) }
{
    match &pat.kind {
        PatKind::Var(name) => Some(name),
        PatKind::Bound(name, _) => Some(name),
        PatKind::Con(_, args) => first_variable_among(args),
        PatKind::Literal(_) => None,
        PatKind::Wild => None,
        PatKind::Tuple(parts) => first_variable_among(parts),
        PatKind::List(elements) => first_variable_among(elements),
        PatKind::Lazy(inner) => first_variable(inner),
    }
}

/// Returns the first variable of a row of patterns.
#[cycle(first_variables)]
#[tactic(auto, using(crate::proofs::FaultsTold::pattern_falls))]
fn first_variable_among(row: &[Pat]) -> Option<&Name>
    ensures { option_map (λ n. n.now) result ≡ leading (patterns_variables (patterns row.now)) }
{
    'row: for pat in row {
        match first_variable(pat) {
            Some(name) => return Some(name),
            None => {}
        }
    }
    None
}

/// Returns the fault of a unit without a type.
fn untyped(place: Place, name: Text) -> Fault
    ensures { result ≡ fault Untyped (bare place.line place.column name) }
{
    Fault {
        place,
        kind: Kind::Untyped,
        name,
    }
}

/// Returns the text that names a pattern in a fault: its first variable, or `_` if it has none.
fn pattern_text(alloc: Global, pat: &Pat) -> Result<Text, AllocError>
    ensures { IfOk result (λ text. text ≡ first_text (pattern_variables pat.now)) }
{
    match first_variable(pat) {
        Some(name) => Ok(name.text.copy()?),
        None => Ok(Text::from_str(alloc, "_")?),
    }
}

/// Adds the fault of the unit that begins with a declaration. The declaration must bind something.
fn add_fault(alloc: Global, faults: &mut Vec<Fault>, decl: &Decl) -> Result<(), AllocError>
    ensures { OnOk result (faults.new.items ≡ faults.old.items ++ faults_told (told_name decl.now)) }
{
    match &decl.kind {
        DeclKind::Clause { name, .. } => {
            faults.push(untyped(name.place, name.text.copy()?))?;
            Ok(())
        }
        DeclKind::Pattern { place, pat, .. } => {
            faults.push(untyped(*place, pattern_text(alloc, pat)?))?;
            Ok(())
        }
        _ => Ok(()),
    }
}

/// Returns the faults of the units that begin at these places, in order.
pub(crate) fn told_faults(
    alloc: Global,
    decls: &[Decl],
    starts: &[usize],
) -> Result<Row<Fault>, AllocError>
    requires { All (λ p. p < length decls.now) starts.now }
    ensures { IfOk result (λ found. (c : ModuleCore) (units : List UnitName) → c.decls ≡ decls.now → AreStartsOf c units starts.now → AreToldAs c units found) }
{
    let mut faults = Vec::new(alloc);
    'starts: for start in starts {
        add_fault(alloc, &mut faults, &decls[*start])?;
    }
    Ok(Row {
        items: sort_faults(faults)?,
    })
}
