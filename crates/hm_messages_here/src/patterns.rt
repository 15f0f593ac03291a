//! Pattern bindings, in whose copies each variable has the type of the module's variable.
ghost use Rattle.std.specs.Prelude.{◌≡◌, ◌++◌, Contains, IfOk, IfSome, codes, map, string_bytes, take};
ghost use Rattle.hm_lex.specs.Cut.{place_after};
ghost use Rattle.hm_syntax.specs.Trees.{RightSide, pattern_binding};
ghost use Rattle.hm_names.specs.Variables.{texts};
ghost use Rattle.hm_messages_here.specs.Patterns.{IsSharedAt, IsTied, all_shared, shared};

use hm_lex::Place;
use hm_messages_changes::place_of_byte;
use hm_messages_copies::Copied;
use hm_messages_trials::module_in;
use hm_messages_types::Question;
use hm_names::{LentNames, add_pattern};
use hm_syntax::{Decl, DeclKind, Name, Pat};
use std::alloc::{AllocError, Global};

/// The texts by which the copy of a definition has its type.
#[derive(Drop)]
pub(crate) struct Tie {
    /// What the copy is in one list with.
    pub value: String,
    /// What is after the copy.
    pub local: String,
}

/// Returns the pattern of a declaration, if it is a pattern binding at this place.
fn pattern_at(decl: &Decl, place: Place) -> Option<&Pat>
    ensures { IfSome result (λ pattern. (side : RightSide) × (decl.now ≡ pattern_binding place.line place.column pattern.now side)) }
{
    let DeclKind::Pattern {
        place: own,
        pat,
        ..
    } = &decl.kind
    else {
        return None;
    };
    if own.line != place.line || own.column != place.column {
        return None;
    }
    Some(pat)
}

/// Returns the pattern of the pattern binding at this place.
fn pattern_among(decls: &[Decl], place: Place) -> Option<&Pat>
    ensures { IfSome result (λ pattern. (side : RightSide) × Contains decls.now (pattern_binding place.line place.column pattern.now side)) }
{
    'decls: for decl in decls {
        match pattern_at(decl, place) {
            Some(pat) => return Some(pat),
            None => {}
        }
    }
    None
}

/// Returns a list of a variable of the module and the local one of the same name.
fn shared(alloc: Global, module: &str, name: &str) -> Result<String, AllocError>
    ensures { IfOk result (λ text. string_bytes text ≡ shared «module».now name.now) }
{
    format!(in alloc; " : (case {module}.{name} : {name} : [] of {{ _ -> () }})")
}

/// Returns an expression of type `()` in which each of these variables has the type of the module's one.
fn all_shared(alloc: Global, module: &str, names: &[&Name]) -> Result<String, AllocError>
    ensures { IfOk result (λ text. string_bytes text ≡ all_shared «module».now (texts (map (λ n. n.now) names.now))) }
{
    let mut all = String::new(alloc);
    'names: for name in names {
        let one = shared(alloc, module, name.as_str())?;
        all.push_str(one.as_str())?;
    }
    let all = all.as_str();
    format!(in alloc; "case (){all} : [] of {{ _ -> () }}")
}

/// Returns the text that has each variable of the pattern binding at this place, if there is one.
fn shared_at(
    alloc: Global,
    question: &Question<'_>,
    place: Place,
) -> Result<Option<String>, AllocError>
    ensures { IfOk result (λ found. IfSome found (λ text. IsSharedAt question.now.source.now question.now.name.now place (string_bytes text))) }
{
    let Some(program) = module_in(alloc, question.source, question.name)? else {
        return Ok(None);
    };
    let Some(pat) = pattern_among(program.decls.as_slice(), place) else {
        return Ok(None);
    };
    let mut names = LentNames::new(alloc);
    add_pattern(&mut names, pat)?;
    Ok(Some(all_shared(alloc, question.name, names.as_slice())?))
}

/// Returns the text that has each variable of the pattern binding at this byte, if there is one.
fn shared_from(
    alloc: Global,
    question: &Question<'_>,
    from: usize,
) -> Result<Option<String>, AllocError>
    ensures { IfOk result (λ found. IfSome found (λ text. IsSharedAt question.now.source.now question.now.name.now
        (place_after (take from question.now.source.now)) (string_bytes text))) }
{
    if from > question.source.len() || from >= u32::MAX as usize {
        return Ok(None);
    }
    let place = place_of_byte(question.source, from);
    Ok(shared_at(alloc, question, place)?)
}

/// Returns the tie of a pattern binding.
fn pattern_tie(
    alloc: Global,
    question: &Question<'_>,
    first: &Copied<'_>,
) -> Result<Option<Tie>, AllocError>
    requires { first.now.name.now ≡ codes "()" }
    ensures { IfOk result (λ found. IfSome found (λ tie. IsTied question.now.source.now question.now.name.now first.now.whole.from first.now.name.now
        (string_bytes tie.value) (string_bytes tie.local))) }
{
    let Some(local) = shared_from(alloc, question, first.whole.from)? else {
        return Ok(None);
    };
    let value = String::from_str(alloc, "()")?;
    Ok(Some(Tie { value, local }))
}

/// Returns the texts by which the copy of a definition at top level has its type: its name with its module, or each variable of a pattern binding.
pub(crate) fn tie_of(
    alloc: Global,
    question: &Question<'_>,
    first: &Copied<'_>,
) -> Result<Option<Tie>, AllocError>
    ensures { IfOk result (λ found. IfSome found (λ tie. IsTied question.now.source.now question.now.name.now first.now.whole.from first.now.name.now
        (string_bytes tie.value) (string_bytes tie.local))) }
{
    if first.name == "()" {
        return Ok(pattern_tie(alloc, question, first)?);
    }
    let module = question.name;
    let name = first.name;
    let value = format!(in alloc; "{module}.{name}")?;
    let local = String::from_str(alloc, first.local.name)?;
    Ok(Some(Tie { value, local }))
}
