//! A source without its definitions that are type faults.
ghost use Rattle.std.specs.Prelude.{◌≡◌, IfOk, IfSome, true};
ghost use Rattle.hm_messages_here.specs.TypesHere.{IsWithout};

use hm_messages_changes::{Other, ScopeChange, bytes_of, changed_by};
use hm_messages_copies::{Declared, declared_in, is_definition, is_signed, name_of};
use hm_messages_outline::{Lexed, Run, declarations_of, name_at, number_at, past_semicolons};
use hm_messages_trials::read;
use hm_names::{Fault, Kind};
use hm_parse_grammar::Symbol;
use std::alloc::{AllocError, Global};
use std::collections::HashSet;

/// A source with the hole in place of some definitions, and the definitions whose types depend on these.
#[derive(Drop)]
pub struct Whole {
    pub source: Vec<u8>,
    /// The bytes of the definitions that are the hole, and of those that depend on one without a signature.
    open: Vec<Hidden>,
}

/// A definition whose type isn't known: its name and its bytes.
#[derive(Drop)]
struct Hidden {
    name: String,
    from: usize,
    to: usize,
}

impl Whole {
    /// Returns whether a byte is in a definition whose type isn't known.
    pub fn hides(&self, byte: usize) -> bool {
        for hidden in &self.open {
            if hidden.from <= byte && byte < hidden.to {
                return true;
            }
        }
        false
    }

    /// Returns whether a name is that of a definition whose type isn't known.
    pub fn hides_name(&self, name: &str) -> bool {
        for hidden in &self.open {
            if hidden.name.as_str() == name {
                return true;
            }
        }
        false
    }
}

/// Returns the definitions among the declarations of a module.
fn definitions_in(
    alloc: Global,
    lexed: &Lexed<'_>,
    body: Run,
) -> Result<Vec<Declared>, AllocError> {
    let mut found = Vec::new(alloc);
    let mut at = body.start;
    for _ in body.start..body.end {
        at = past_semicolons(lexed.outline, at);
        if at >= body.end {
            return Ok(found);
        }
        let Some(declared) = declared_in(lexed, body, at) else {
            return Ok(found);
        };
        if is_definition(lexed.outline, declared.run) {
            found.push(declared)?;
        }
        at = declared.run.end.max(at.saturating_add(1));
    }
    Ok(found)
}

/// Returns whether a definition has the token of one of these faults.
fn is_faulty(lexed: &Lexed<'_>, run: Run, faults: &[Fault]) -> bool {
    for fault in faults {
        if run.has(number_at(lexed.tokens, fault.place)) {
            return true;
        }
    }
    false
}

/// Returns whether a definition mentions one of these variables.
fn mentions(lexed: &Lexed<'_>, run: Run, unknown: &HashSet<&str>) -> bool {
    for at in run.start..run.end.min(lexed.tokens.len()) {
        if lexed.outline.symbol(at).is(Symbol::Var)
            && unknown.contains(name_at(lexed.source, &lexed.tokens[at]))
        {
            return true;
        }
    }
    false
}

/// Adds the variables that a definition without a signature binds.
fn add_bound<'a>(
    unknown: &mut HashSet<&'a str>,
    lexed: &Lexed<'a>,
    declared: Declared,
) -> Result<(), AllocError> {
    if is_signed(lexed, declared) {
        return Ok(());
    }
    let run = declared.run;
    let end = lexed
        .outline
        .find(run.start, run.end, Symbol::Equals)
        .unwrap_or(run.end);
    for at in run.start..end.min(lexed.tokens.len()) {
        if lexed.outline.symbol(at).is(Symbol::Var) {
            unknown.insert(name_at(lexed.source, &lexed.tokens[at]))?;
            if !name_of(lexed.source, lexed, run).starts_with('(') {
                return Ok(());
            }
        }
    }
    Ok(())
}

/// Returns for each definition whether its type isn't known: it is a fault, or mentions one that isn't known and has no signature.
fn hidden_of(
    alloc: Global,
    lexed: &Lexed<'_>,
    definitions: &[Declared],
    faults: &[Fault],
) -> Result<Vec<bool>, AllocError> {
    let mut hidden = Vec::new(alloc);
    let mut unknown = HashSet::new(alloc);
    for declared in definitions {
        let is_faulty = is_faulty(lexed, declared.run, faults);
        if is_faulty {
            add_bound(&mut unknown, lexed, *declared)?;
        }
        hidden.push(is_faulty)?;
    }
    for _ in 0..definitions.len() {
        let mut is_done = true;
        for number in 0..definitions.len().min(hidden.len()) {
            if !hidden[number] && mentions(lexed, definitions[number].run, &unknown) {
                add_bound(&mut unknown, lexed, definitions[number])?;
                hidden[number] = true;
                is_done = false;
            }
        }
        if is_done {
            break;
        }
    }
    Ok(hidden)
}

/// Returns the definitions whose types aren't known.
fn open_of(
    alloc: Global,
    lexed: &Lexed<'_>,
    definitions: &[Declared],
    hidden: &[bool],
) -> Result<Vec<Hidden>, AllocError> {
    let mut open = Vec::new(alloc);
    for number in 0..definitions.len().min(hidden.len()) {
        if !hidden[number] {
            continue;
        }
        let declared = definitions[number];
        let name = if is_signed(lexed, declared) {
            "()"
        } else {
            name_of(lexed.source, lexed, declared.run)
        };
        if let Some((from, to)) = bytes_of(lexed.tokens, declared.run, lexed.source) {
            open.push(Hidden {
                name: String::from_str(alloc, name)?,
                from,
                to,
            })?;
        }
    }
    Ok(open)
}

/// Returns the definitions that are faults.
fn faulty_of<'a>(
    alloc: Global,
    lexed: &Lexed<'a>,
    definitions: &[Declared],
    faults: &[Fault],
) -> Result<Vec<Other<'a>>, AllocError> {
    let mut faulty = Vec::new(alloc);
    for declared in definitions {
        if !is_faulty(lexed, declared.run, faults) {
            continue;
        }
        if let Some((from, to)) = bytes_of(lexed.tokens, declared.run, lexed.source) {
            faulty.push(Other {
                name: name_of(lexed.source, lexed, declared.run),
                from,
                to,
            })?;
        }
    }
    Ok(faulty)
}

/// Returns the source with the hole in place of these definitions.
fn with_holes(
    alloc: Global,
    source: &[u8],
    faulty: &[Other<'_>],
    at: usize,
) -> Result<Option<Vec<u8>>, AllocError>
    ensures { IfOk result (λ found. IfSome found (λ made. IsWithout source.now made.items)) }
{
    let change = ScopeChange {
        names: &[],
        replaced: faulty,
        at,
    };
    Ok(changed_by(alloc, source, &change)?)
}

// Why: docs/DECISIONS.md, "Types beside faults".
/// Returns the source of a module with the hole in place of its definitions that are type faults. The bytes of other definitions stay where they are.
///
/// None if one of the faults isn't a type fault, or if the source can't be read.
///
/// # Errors
///
/// Memory ran out.
pub fn without_faults(
    alloc: Global,
    source: &[u8],
    name: &str,
    faults: &[Fault],
) -> Result<Option<Whole>, AllocError>
    ensures { IfOk result (λ found. IfSome found (λ whole. IsWithout source.now whole.source.items)) }
{
    if faults.is_empty() {
        let source = Vec::from_slice(alloc, source)?;
        let open = Vec::new(alloc);
        return Ok(Some(Whole { source, open }));
    }
    if faults.iter().any(|fault| fault.kind != Kind::Untyped) {
        return Ok(None);
    }
    let Some(reading) = read(alloc, source)? else {
        return Ok(None);
    };
    let lexed = reading.lexed(source);
    let Some(body) = declarations_of(&lexed, name) else {
        return Ok(None);
    };
    let definitions = definitions_in(alloc, &lexed, body)?;
    let hidden = hidden_of(alloc, &lexed, definitions.as_slice(), faults)?;
    let open = open_of(alloc, &lexed, definitions.as_slice(), hidden.as_slice())?;
    let faulty = faulty_of(alloc, &lexed, definitions.as_slice(), faults)?;
    match with_holes(alloc, source, faulty.as_slice(), lexed.start(body.end))? {
        Some(source) => Ok(Some(Whole { source, open })),
        None => Ok(None),
    }
}
