//! The object of a refused set.
ghost use Rattle.std.specs.Prelude.{◌≡◌, IfOk, option_map, string_bytes};
ghost use Rattle.serde_json.specs.Data.{null};
ghost use Rattle.serde_json.specs.View.{view};
ghost use Rattle.hm_build_objects.specs.Objects.{count};
ghost use Rattle.hm_run_sources.specs.Refusals.{IsLasting, lex, plan};
ghost use Rattle.hm_build_listing.specs.Refusals.{count_or_null, place_or_null, refusal_data, refusal_object_text, refused_data, text_or_null};

use hm_build_objects::line_of;
use hm_graph::PlanFault;
use hm_lex::{LexFault, Place};
use hm_parse::ParseFault;
use hm_run_sources::{SetFault, SetFaultKind};
use serde_json::{Value, json};
use std::alloc::{AllocError, Global};

/// Why a set is refused.
#[derive(Clone, Copy)]
struct Reason<'a> {
    word: &'a str,
    /// The number of the source, from 1.
    source: Option<usize>,
    place: Option<Place>,
    module: Option<&'a str>,
    import: Option<&'a str>,
}

/// Returns a text as a JSON value, or null if there is none.
fn text_value(alloc: Global, text: Option<&str>) -> Result<Value, AllocError>
    ensures { IfOk result (λ value. view value ≡ text_or_null (option_map (λ t. t.now) text.entry)) }
{
    match text {
        Some(text) => Ok(Value::String(String::from_str(alloc, text)?)),
        None => Ok(Value::Null),
    }
}

/// Returns a number as a JSON value, or null if there is none.
fn count_value(count: Option<usize>) -> Value
    ensures { view result ≡ count_or_null count }
{
    match count {
        Some(count) => Value::from(count as u64),
        None => Value::Null,
    }
}

/// Returns a place as an object, or null if there is none.
fn place_value(alloc: Global, place: Option<Place>) -> Result<Value, AllocError>
    ensures { IfOk result (λ value. view value ≡ place_or_null place) }
{
    match place {
        Some(place) => {
            let line = place.line as u64;
            let column = place.column as u64;
            json!(in alloc; {"column": column, "line": line})
        }
        None => Ok(Value::Null),
    }
}

/// The members of a reason that may be missing.
#[derive(Clone, Copy)]
struct Members<'a> {
    source: &'a Value,
    place: &'a Value,
    owner: &'a Value,
    import: &'a Value,
}

/// Returns the object of a refusal with these members.
fn joined(alloc: Global, word: &str, members: Members<'_>) -> Result<Value, AllocError>
    ensures { IfOk result (λ value. view value ≡ refused_data word.now (view members.entry.source.now) (view members.entry.place.now)
        (view members.entry.owner.now) (view members.entry.import.now)) }
{
    let Members {
        source,
        place,
        owner,
        import,
    } = members;
    json!(in alloc; {
        "import": import,
        "kind": "refused",
        "module": owner,
        "place": place,
        "reason": word,
        "source": source,
    })
}

/// Returns a reason as an object.
fn refused_value(alloc: Global, reason: Reason<'_>) -> Result<Value, AllocError>
    ensures { IfOk result (λ value. view value ≡ refused_data reason.entry.word.now (count_or_null reason.entry.source) (place_or_null reason.entry.place)
        (text_or_null (option_map (λ t. t.now) reason.entry.«module»)) (text_or_null (option_map (λ t. t.now) reason.entry.import))) }
{
    let source = count_value(reason.source);
    let place = place_value(alloc, reason.place)?;
    let owner = text_value(alloc, reason.module)?;
    let import = text_value(alloc, reason.import)?;
    let members = Members {
        source: &source,
        place: &place,
        owner: &owner,
        import: &import,
    };
    joined(alloc, reason.word, members)
}

/// Returns the object of a fault at a place of a source.
fn placed_value(
    alloc: Global,
    word: &str,
    source: usize,
    place: Option<Place>,
) -> Result<Value, AllocError>
    ensures { IfOk result (λ value. view value ≡ refused_data word.now (count source) (place_or_null place) null null) }
{
    let reason = Reason {
        word,
        source: Some(source),
        place,
        module: None,
        import: None,
    };
    refused_value(alloc, reason)
}

/// Returns the object of a fault of the plan with these names.
fn named_value(
    alloc: Global,
    word: &str,
    module: Option<&str>,
    import: Option<&str>,
) -> Result<Value, AllocError>
    ensures { IfOk result (λ value. view value ≡ refused_data word.now null null (text_or_null (option_map (λ t. t.now) «module».entry))
        (text_or_null (option_map (λ t. t.now) import.entry))) }
{
    let reason = Reason {
        word,
        source: None,
        place: None,
        module,
        import,
    };
    refused_value(alloc, reason)
}

/// Returns the object of a lexical fault.
fn lex_value(alloc: Global, source: usize, fault: LexFault) -> Result<Value, AllocError>
    requires { IsLasting (lex source fault) }
    ensures { IfOk result (λ value. view value ≡ refusal_data (lex source fault)) }
{
    match fault {
        LexFault::TooLong => placed_value(alloc, "too-long", source, None),
        LexFault::Lexeme(place) => placed_value(alloc, "lexeme", source, Some(place)),
        LexFault::OpenComment(place) => placed_value(alloc, "open-comment", source, Some(place)),
        LexFault::TooDeep(place) => placed_value(alloc, "too-deep", source, Some(place)),
        LexFault::Memory => unreachable!(),
    }
}

/// Returns the object of a fault of the plan.
fn plan_value(
    alloc: Global,
    fault: PlanFault,
    name: &str,
    missing: &str,
) -> Result<Value, AllocError>
    requires { IsLasting (plan fault name.now missing.now) }
    ensures { IfOk result (λ value. view value ≡ refusal_data (plan fault name.now missing.now)) }
{
    match fault {
        PlanFault::TooMany => named_value(alloc, "too-many-modules", None, None),
        PlanFault::Duplicate { .. } => named_value(alloc, "twice", Some(name), None),
        PlanFault::Missing { .. } => named_value(alloc, "missing", Some(name), Some(missing)),
        PlanFault::Cycle { .. } => named_value(alloc, "cycle", Some(name), None),
        PlanFault::Memory => unreachable!(),
    }
}

/// Returns the object of a refusal.
fn refusal_value(alloc: Global, fault: &SetFault) -> Result<Value, AllocError>
    ensures { IfOk result (λ value. view value ≡ refusal_data fault.now) }
{
    match &fault.kind {
        SetFaultKind::Lex { source, fault } => lex_value(alloc, *source, *fault),
        SetFaultKind::Parse { source, fault } => match fault {
            ParseFault::Syntax(place) => placed_value(alloc, "syntax", *source, Some(*place)),
            ParseFault::Memory => unreachable!(),
        },
        SetFaultKind::Plan {
            fault,
            module,
            import,
        } => plan_value(alloc, *fault, module.as_str(), import.as_str()),
    }
}

/// Returns the object that says why a set is refused, and a line end.
pub fn refusal_line(alloc: Global, fault: &SetFault) -> Result<String, AllocError>
    ensures { IfOk result (λ text. string_bytes text ≡ refusal_object_text fault.now) }
{
    let value = refusal_value(alloc, fault)?;
    line_of(alloc, &value)
}
