//! What is wrong with a module, in a few words: the kind of a fault, its name, and what else is known of it.
ghost use Rattle.std.specs.Prelude.{◌≡◌, ◌++◌, IfOk, option_map, string_bytes};
ghost use Rattle.hm_messages_details.specs.Details.{candidate_of, elsewhere, known_of};
ghost use Rattle.hm_messages_titles.specs.Titles.{both_text as both_bytes, detail_text as detail_bytes, either_text as either_bytes, fault_title as fault_title_bytes, first_text, hidden_title as hidden_title_bytes, hiding_text as hiding_bytes, import_text as import_bytes, kind_title as kind_title_bytes, line_text as line_bytes, near_text, not_from_text as not_from_bytes, qualified_text as qualified_bytes, space_noun as noun_bytes, written_text as written_bytes};

use hm_messages_details::{Candidate, Detail, Origin};
use hm_messages_json::Position;
use hm_names::{Kind, Namespace};
use std::alloc::{AllocError, Global};

/// The name that a fault is about, as it is written, with the detail of the fault.
#[derive(Clone, Copy)]
pub struct NamedFault<'a> {
    pub name: &'a str,
    pub detail: Detail<'a>,
    /// The position of the place that the detail names, if it names one.
    pub other: Option<Position>,
}

/// Returns a text with a name in it.
fn with_name(alloc: Global, front: &str, name: &str, back: &str) -> Result<String, AllocError>
    ensures { IfOk result (λ text. string_bytes text ≡ front.now ++ name.now ++ back.now) }
{
    format!(in alloc; "{front}{name}{back}")
}

/// Returns what is wrong, by the kind and the name alone.
fn kind_title(alloc: Global, kind: Kind, name: &str) -> Result<String, AllocError>
    ensures { IfOk result (λ text. string_bytes text ≡ kind_title_bytes kind name.now) }
{
    match kind {
        Kind::NotExported => with_name(alloc, "cannot import '", name, "'"),
        Kind::Duplicate => with_name(alloc, "a second declaration of '", name, "'"),
        Kind::NoBinding => with_name(alloc, "the signature of '", name, "' has no clauses"),
        Kind::Unbound => with_name(alloc, "'", name, "' isn't in scope"),
        Kind::Ambiguous => with_name(alloc, "'", name, "' is ambiguous"),
        Kind::ExportClash => with_name(alloc, "two different things are exported as '", name, "'"),
        Kind::NotImported => with_name(alloc, "no import is called '", name, "'"),
        Kind::NonLinear => with_name(alloc, "'", name, "' occurs twice in these patterns"),
        Kind::Arity => with_name(alloc, "wrong number of arguments for '", name, "'"),
        Kind::ClauseLength => with_name(
            alloc,
            "the clauses of '",
            name,
            "' have different numbers of patterns",
        ),
        Kind::Untyped => with_name(alloc, "type error in '", name, "'"),
        Kind::Recursive => with_name(alloc, "the type synonym '", name, "' is defined by itself"),
    }
}

/// Returns the text about a similar name, with its qualifier.
fn near_text(alloc: Global, qualifier: Option<&str>, name: &str) -> Result<String, AllocError>
    ensures { IfOk result (λ text. string_bytes text ≡ near_text (option_map (λ q. q.now) qualifier.entry) name.now) }
{
    match qualifier {
        Some(qualifier) => format!(in alloc; " (did you mean '{qualifier}.{name}'?)"),
        None => format!(in alloc; " (did you mean '{name}'?)"),
    }
}

/// Returns the text about two entities of one name, by the modules that define them.
fn both_text(
    alloc: Global,
    one: &Candidate<'_>,
    other: &Candidate<'_>,
) -> Result<String, AllocError>
    ensures { IfOk result (λ text. string_bytes text ≡ both_bytes (candidate_of one.now) (candidate_of other.now)) }
{
    let Origin { module, name } = one.origin;
    let Origin {
        module: other_module,
        name: other_name,
    } = other.origin;
    format!(in alloc;
        ": '{name}' of module '{module}' or '{other_name}' of module '{other_module}'"
    )
}

/// Returns the text about the line of an import.
fn line_text(alloc: Global, line: Option<u32>) -> Result<String, AllocError>
    ensures { IfOk result (λ text. string_bytes text ≡ line_bytes line) }
{
    match line {
        Some(line) => format!(in alloc; " (imported in line {line})"),
        None => Ok(String::new(alloc)),
    }
}

/// Returns how to write an entity with a qualifier, and where this comes from.
fn qualified_text(
    alloc: Global,
    qualifier: &str,
    candidate: &Candidate<'_>,
) -> Result<String, AllocError>
    ensures { IfOk result (λ text. string_bytes text ≡ qualified_bytes qualifier.now (candidate_of candidate.now)) }
{
    let name = candidate.origin.name;
    let mut text = format!(in alloc; "'{qualifier}.{name}'")?;
    text.push_str(line_text(alloc, candidate.line)?.as_str())?;
    Ok(text)
}

/// Returns how to hide an entity of Prelude that is imported implicitly.
fn hiding_text(alloc: Global, candidate: &Candidate<'_>) -> Result<String, AllocError>
    ensures { IfOk result (λ text. string_bytes text ≡ hiding_bytes (candidate_of candidate.now)) }
{
    if !candidate.is_implicit {
        return Ok(String::new(alloc));
    }
    let name = candidate.origin.name;
    format!(in alloc; ", or add 'import Prelude hiding ({name})'")
}

/// A name of an entity that means it alone: a qualifier, and the entity.
#[derive(Clone, Copy)]
struct Qualified<'r, 'a> {
    qualifier: &'r str,
    candidate: &'r Candidate<'a>,
}

/// Returns the text about two entities of one name, with what to write for each.
fn written_text(
    alloc: Global,
    one: Qualified<'_, '_>,
    other: Qualified<'_, '_>,
) -> Result<String, AllocError>
    ensures { IfOk result (λ text. string_bytes text ≡ written_bytes one.entry.qualifier.now other.entry.qualifier.now (candidate_of one.entry.candidate.now) (candidate_of other.entry.candidate.now)) }
{
    let mut text = String::from_str(alloc, ": write ")?;
    text.push_str(qualified_text(alloc, one.qualifier, one.candidate)?.as_str())?;
    text.push_str(" or ")?;
    text.push_str(qualified_text(alloc, other.qualifier, other.candidate)?.as_str())?;
    text.push_str(hiding_text(alloc, one.candidate)?.as_str())?;
    text.push_str(hiding_text(alloc, other.candidate)?.as_str())?;
    Ok(text)
}

/// Returns the text about two entities of one name.
fn either_text(
    alloc: Global,
    one: &Candidate<'_>,
    other: &Candidate<'_>,
) -> Result<String, AllocError>
    ensures { IfOk result (λ text. string_bytes text ≡ either_bytes (candidate_of one.now) (candidate_of other.now)) }
{
    let Some(qualifier) = one.qualifier else {
        return both_text(alloc, one, other);
    };
    let first = Qualified {
        qualifier,
        candidate: one,
    };
    let Some(qualifier) = other.qualifier else {
        return both_text(alloc, one, other);
    };
    let second = Qualified {
        qualifier,
        candidate: other,
    };
    written_text(alloc, first, second)
}

/// Returns the text about the module that doesn't export a name.
fn not_from_text(alloc: Global, module: &str, owner: Option<&str>) -> Result<String, AllocError>
    ensures { IfOk result (λ text. string_bytes text ≡ not_from_bytes «module».now (option_map (λ t. t.now) owner.entry)) }
{
    match owner {
        Some(owner) => format!(in alloc;
            ": '{module}' doesn't export it as a constructor of '{owner}'"
        ),
        None => format!(in alloc; ": '{module}' doesn't export it"),
    }
}

/// Returns the text about a module that doesn't export a name, and about a near name that it exports.
fn import_text(
    alloc: Global,
    module: &str,
    owner: Option<&str>,
    near: Option<&str>,
) -> Result<String, AllocError>
    ensures { IfOk result (λ text. string_bytes text ≡ import_bytes «module».now (option_map (λ t. t.now) owner.entry) (option_map (λ y. y.now) near.entry)) }
{
    let mut text = not_from_text(alloc, module, owner)?;
    match near {
        Some(near) => {
            text.push_str(near_text(alloc, None, near)?.as_str())?;
            Ok(text)
        }
        None => Ok(text),
    }
}

/// Returns what has a name in this namespace.
fn space_noun(space: Namespace) -> &'static str
    ensures { result.now ≡ noun_bytes space }
{
    match space {
        Namespace::Types => "type",
        Namespace::Constructors => "constructor",
        Namespace::Values => "variable",
    }
}

/// Returns the text about the namespace in which a name is in scope.
fn elsewhere_text(alloc: Global, space: Namespace) -> Result<String, AllocError>
    ensures { IfOk result (λ text. string_bytes text ≡ detail_bytes (elsewhere space)) }
{
    let noun = space_noun(space);
    format!(in alloc; ": a {noun} has this name, but can't stand here")
}

/// Returns the text of a detail beyond the kind and the name.
fn detail_text(alloc: Global, detail: &Detail<'_>) -> Result<String, AllocError>
    ensures { IfOk result (λ text. string_bytes text ≡ detail_bytes (known_of detail.now)) }
{
    match detail {
        Detail::Nothing => Ok(String::new(alloc)),
        Detail::Near(qualifier, name) => near_text(alloc, *qualifier, name),
        Detail::LeftOut => String::from_str(alloc, ": this Prelude leaves it out"),
        Detail::Either(one, other) => either_text(alloc, one, other),
        Detail::First(_) => Ok(String::new(alloc)),
        Detail::Arguments(here, takes) => format!(in alloc;
            ": it has {here} here, but takes {takes}"
        ),
        Detail::Patterns(here, first) => format!(in alloc;
            ": {here} here, but {first} in the first"
        ),
        Detail::NotFrom(module, owner, near) => import_text(alloc, module, *owner, *near),
        Detail::NearBinding(name) => near_text(alloc, None, name),
        Detail::Elsewhere(space) => elsewhere_text(alloc, *space),
        Detail::ByPattern => String::from_str(alloc, ": a pattern binds it"),
        Detail::NearLocal(name) => near_text(alloc, None, name),
    }
}

/// Returns the text about the place of the first of two names.
fn first_text(alloc: Global, other: Option<Position>) -> Result<String, AllocError>
    ensures { IfOk result (λ text. string_bytes text ≡ first_text other) }
{
    match other {
        Some(position) => {
            let line = position.line;
            let column = position.columns.characters;
            format!(in alloc; ": the first is at {line}:{column}")
        }
        None => Ok(String::new(alloc)),
    }
}

/// Returns what is wrong, with the detail beyond the kind and the name.
pub fn fault_title(alloc: Global, kind: Kind, named: &NamedFault<'_>) -> Result<String, AllocError>
    ensures { IfOk result (λ text. string_bytes text ≡ fault_title_bytes kind named.now.name.now (known_of named.now.detail) named.now.other) }
{
    let mut text = kind_title(alloc, kind, named.name)?;
    text.push_str(detail_text(alloc, &named.detail)?.as_str())?;
    text.push_str(first_text(alloc, named.other)?.as_str())?;
    Ok(text)
}

/// Returns the text about a fault that the report leaves out.
pub fn hidden_title(alloc: Global, kind: Kind, name: &str) -> Result<String, AllocError>
    ensures { IfOk result (λ text. string_bytes text ≡ hidden_title_bytes kind name.now) }
{
    let mut text = kind_title(alloc, kind, name)?;
    text.push_str(", whatever the names that aren't in scope mean")?;
    Ok(text)
}
