//! The messages of a refused set.
ghost use Rattle.std.specs.Prelude.{◌≡◌, ◌-◌, ◌<◌, ◌++◌, ℕ, List, [], All, IfOk, IfSome, IsErrOf, Option, false, length, map, option_map, slice_index_or, true};
ghost use Rattle.hm_lex.specs.declared.token.Place.{Place};
ghost use Rattle.hm_run_sources.specs.Origins.{AreHeadersFor, AreLocated};
ghost use Rattle.hm_run_sources.specs.Refusals.{lex, parse, plan};
ghost use Rattle.hm_run_sources.specs.declared.located.Located.{Located as Row};
ghost use Rattle.hm_messages.specs.Foreign.{HasNoMissing, HasSource, IsForeign, IsForeignPlan, IsOfNoSource};
ghost use Rattle.hm_messages.specs.Pages.{files_in, texts_in};
ghost use Rattle.hm_messages.specs.Messages.{AreEach};
ghost use Rattle.hm_messages.specs.Missing.{import_of};
ghost use Rattle.hm_messages.specs.Refused.{Way, AreFurtherStated, AreMessagesOf, AreRefusalMessages, HasTwinStated, IsAdvised, IsMessageAt, IsNamedAt, IsMissingStated, IsPositionOf, IsTwinStated, IsWayStated, MayHint, first_place};
ghost use Rattle.hm_messages.specs.Subjects.{cycle, subject_of, twice};
ghost use Rattle.hm_messages.specs.Twins.{IsTwinOf};

use crate::cycles::{ImportStep, cycle_of};
use crate::messages::{MessageFault, heading_at, message};
use crate::missing::{MissingImport, missing_imports, near_for};
use crate::pages::{Page, Pages};
use crate::topic::{PlacedAdvice, Topic};
use hm_graph::PlanFault;
use hm_lex::{LexFault, Place};
use hm_messages_hints::{Advice, LexemeHint, lexeme_hint, operator_in};
use hm_messages_json::{Position, position_at};
use hm_parse_grammar::ParseFault;
use hm_run_sources::{Located, SetFault, SetFaultKind};
use std::alloc::{AllocError, Global};

/// The most modules of a set.
const MODULE_LIMIT: usize = 4096;

/// A source, counted from 0, and a place in it.
#[derive(Clone, Copy)]
struct Spot {
    source: usize,
    place: Place,
}

/// Returns the spot of a module's name.
fn module_spot(located: &[Located], number: usize) -> Spot
    requires { number < length located.now }
    ensures inside { (sources : List (List ℕ)) → AreLocated sources located.now → result.source < length sources }
    ensures named { (sources : List (List ℕ)) → AreLocated sources located.now → IsNamedAt sources result.source result.place }
{
    let here = &located[number];
    Spot {
        source: here.source,
        place: here.header.name.place,
    }
}

/// Returns the spot of the name in an import of a module.
fn import_spot(located: &[Located], step: ImportStep) -> Option<Spot>
    ensures inside { IfSome result (λ spot. (sources : List (List ℕ)) → AreLocated sources located.now → spot.source < length sources) }
    ensures named { IfSome result (λ spot. (sources : List (List ℕ)) → AreLocated sources located.now → IsNamedAt sources spot.source spot.place) }
{
    if step.module >= located.len() {
        return None;
    }
    let here = &located[step.module];
    let import = here.header.imports.as_slice().get(step.import)?;
    Some(Spot {
        source: here.source,
        place: import.name.place,
    })
}

/// Returns the message of a topic at a spot.
fn message_at(
    alloc: Global,
    pages: &Pages<'_>,
    spot: Spot,
    topic: &Topic<'_>,
) -> Result<Vec<u8>, AllocError>
    requires { spot.source < length (texts_in pages.now.items.items) }
    ensures { IfOk result (λ text. IsMessageAt pages.now.format (files_in pages.now.items.items) (texts_in pages.now.items.items) spot.source
        spot.place (subject_of topic.now) text.items) }
{
    let page = &pages.items[spot.source];
    Ok(message(alloc, pages.format, page, spot.place, topic)?)
}

/// Returns whether a source has this number, counted from 1.
fn has_source(pages: &Pages<'_>, source: usize) -> bool
    ensures has { result ≡ true → HasSource (texts_in pages.now.items.items) source }
    ensures hasnt { result ≡ false → ¬ (HasSource (texts_in pages.now.items.items) source) }
{
    source > 0 && source <= pages.items.len()
}

/// Returns the message of a topic at a place of a source, counted from 1.
fn source_messages(
    alloc: Global,
    pages: &Pages<'_>,
    source: usize,
    place: Place,
    topic: &Topic<'_>,
) -> Result<Vec<u8>, AllocError>
    requires { HasSource (texts_in pages.now.items.items) source }
    ensures { IfOk result (λ text. IsMessageAt pages.now.format (files_in pages.now.items.items) (texts_in pages.now.items.items) (source - 1)
        place (subject_of topic.now) text.items) }
{
    let source = source - 1;
    Ok(message_at(alloc, pages, Spot { source, place }, topic)?)
}

/// The hint at a place where no lexeme begins, and the operator that it is about.
#[derive(Clone, Copy)]
struct LexemeAdvice<'a> {
    hint: LexemeHint,
    name: &'a str,
}

/// Returns whether a place is that of the first byte of a source.
fn is_first(place: Place) -> bool
    ensures { result ≡ true → place ≡ first_place }
{
    if place.line != 1 {
        return false;
    }
    place.column == 1
}

/// Returns the hint at a place of a source, counted from 1, where no lexeme begins. It says nothing about a place that isn't in the source.
fn lexeme_advice<'a>(pages: &Pages<'a>, source: usize, place: Place) -> LexemeAdvice<'a>
    requires { HasSource (texts_in pages.now.items.items) source }
    ensures { MayHint (slice_index_or (texts_in pages.now.items.items) (source - 1) []) place result.hint result.name.now }
{
    let nothing = LexemeAdvice {
        hint: LexemeHint::NoText,
        name: "",
    };
    let Some(rest) = pages.items[source - 1].lines.rest_of_line(place) else {
        return nothing;
    };
    let Some(excerpt) = pages.items[source - 1].lines.excerpt(place) else {
        return nothing;
    };
    let hint = lexeme_hint(rest, is_first(place));
    let name = operator_in(excerpt.right, hint);
    LexemeAdvice { hint, name }
}

/// Returns the message of the lexical fault of a source, counted from 1.
fn lex_messages(
    alloc: Global,
    pages: &Pages<'_>,
    source: usize,
    fault: LexFault,
) -> Result<Vec<u8>, AllocError>
    requires { HasSource (texts_in pages.now.items.items) source }
    ensures { IfOk result (λ text. AreRefusalMessages pages.now.format (files_in pages.now.items.items) (texts_in pages.now.items.items)
        (lex source fault) 1 text.items) }
{
    match fault {
        LexFault::TooLong => {
            let place = Place { line: 1, column: 1 };
            Ok(source_messages(alloc, pages, source, place, &Topic::TooLong)?)
        }
        LexFault::Lexeme(place) => {
            let LexemeAdvice { hint, name } = lexeme_advice(pages, source, place);
            Ok(source_messages(alloc, pages, source, place, &Topic::Lexeme(hint, name))?)
        }
        LexFault::OpenComment(place) => Ok(source_messages(
            alloc,
            pages,
            source,
            place,
            &Topic::OpenComment,
        )?),
        LexFault::TooDeep(place) => Ok(source_messages(
            alloc,
            pages,
            source,
            place,
            &Topic::TooDeep,
        )?),
        LexFault::Memory => Err(AllocError),
    }
}

/// Returns the position of a place, if there is one and it is in the source.
fn position_of(page: &Page<'_>, place: Option<Place>) -> Option<Position>
    ensures { IsPositionOf page.now.lines place result }
{
    match place {
        Some(place) => position_at(&page.lines, place),
        None => None,
    }
}

/// Returns the message of the syntax fault of a source, counted from 1.
fn parse_messages(
    alloc: Global,
    pages: &Pages<'_>,
    source: usize,
    fault: ParseFault,
    advice: Advice<'_>,
) -> Result<Vec<u8>, AllocError>
    requires inside { HasSource (texts_in pages.now.items.items) source }
    requires advised { IsAdvised (texts_in pages.now.items.items) (parse source fault) advice.hint advice.text.now advice.elsewhere }
    ensures { IfOk result (λ text. AreRefusalMessages pages.now.format (files_in pages.now.items.items) (texts_in pages.now.items.items)
        (parse source fault) 1 text.items) }
{
    match fault {
        ParseFault::Syntax(place) => {
            let other = position_of(&pages.items[source - 1], advice.elsewhere);
            let Advice { hint, text, .. } = advice;
            let topic = Topic::Syntax(PlacedAdvice { hint, text, other });
            Ok(source_messages(alloc, pages, source, place, &topic)?)
        }
        ParseFault::Memory => Err(AllocError),
    }
}

/// Why a set has no plan, with the names of the module and the import of the fault.
#[derive(Clone, Copy)]
struct Refused<'a> {
    fault: PlanFault,
    name: &'a str,
    import: &'a str,
}

/// Returns the first line of the message of a step in a cycle, or no text if there is no such import.
fn step_line(
    alloc: Global,
    pages: &Pages<'_>,
    located: &[Located],
    step: ImportStep,
) -> Result<Vec<u8>, AllocError>
    requires { AreLocated (texts_in pages.now.items.items) located.now }
    ensures { IfOk result (λ text. (ways : List Way)
        × AreEach (IsWayStated pages.now.format (files_in pages.now.items.items) (texts_in pages.now.items.items)) ways text.items) }
{
    let Some(spot) = import_spot(located, step) else {
        return Ok(Vec::new(alloc));
    };
    if step.module >= located.len() {
        return Ok(Vec::new(alloc));
    }
    let header = &located[step.module].header;
    let Some(import) = header.imports.as_slice().get(step.import) else {
        return Ok(Vec::new(alloc));
    };
    let topic = Topic::Step(header.name.as_str(), import.name.as_str());
    let page = &pages.items[spot.source];
    Ok(heading_at(alloc, pages.format, page, spot.place, &topic)?)
}

/// Returns a line for each step in a cycle.
fn step_lines(
    alloc: Global,
    pages: &Pages<'_>,
    located: &[Located],
    steps: &[ImportStep],
) -> Result<Vec<u8>, AllocError>
    requires { AreLocated (texts_in pages.now.items.items) located.now }
    ensures { IfOk result (λ text. (ways : List Way)
        × AreEach (IsWayStated pages.now.format (files_in pages.now.items.items) (texts_in pages.now.items.items)) ways text.items) }
{
    let mut text = Vec::new(alloc);
    for step in steps {
        let line = step_line(alloc, pages, located, *step)?;
        text.extend_from_slice(line.as_slice())?;
    }
    Ok(text)
}

/// Returns the spot of the first import of a cycle. Without one it is that of the module's name.
fn cycle_spot(located: &[Located], steps: &[ImportStep], start: usize) -> Spot
    requires { start < length located.now }
    ensures inside { (sources : List (List ℕ)) → AreLocated sources located.now → result.source < length sources }
    ensures named { (sources : List (List ℕ)) → AreLocated sources located.now → IsNamedAt sources result.source result.place }
{
    let Some(first) = steps.first() else {
        return module_spot(located, start);
    };
    match import_spot(located, *first) {
        Some(spot) => spot,
        None => module_spot(located, start),
    }
}

/// Returns the messages of a cycle: one at its first import, and then a line for each import.
fn cycle_messages(
    alloc: Global,
    pages: &Pages<'_>,
    located: &[Located],
    start: usize,
    name: &str,
) -> Result<Vec<u8>, AllocError>
    requires located { AreLocated (texts_in pages.now.items.items) located.now }
    requires inside { start < length located.now }
    ensures { IfOk result (λ text. (number : ℕ) × (place : Place) × AreMessagesOf pages.now.format (files_in pages.now.items.items) (texts_in pages.now.items.items)
        number place (cycle name.now) text.items × IsNamedAt (texts_in pages.now.items.items) number place) }
{
    let steps = cycle_of(alloc, located, start)?;
    let spot = cycle_spot(located, steps.as_slice(), start);
    let mut text = message_at(alloc, pages, spot, &Topic::Cycle(name))?;
    let lines = step_lines(alloc, pages, located, steps.as_slice())?;
    text.extend_from_slice(lines.as_slice())?;
    Ok(text)
}

/// Returns whether a module has this name.
fn is_called(here: &Located, name: &str) -> bool
    ensures has { result ≡ true → here.now.header.name.text ≡ name.now }
    ensures hasnt { result ≡ false → ¬ (here.now.header.name.text ≡ name.now) }
{
    here.header.name.as_str() == name
}

/// Returns the first of these modules that has this name.
fn module_called<'a>(located: &'a [Located], name: &str) -> Option<&'a Located>
    ensures { IsTwinOf name.now located.entry.now (option_map (λ l. l.now) result) }
{
    'modules: for here in located {
        if is_called(here, name) {
            return Some(here);
        }
    }
    None
}

/// Returns a note at the first of these modules that has this name, or nothing if none has it.
fn twin_note(
    alloc: Global,
    pages: &Pages<'_>,
    earlier: &[Located],
    name: &str,
) -> Result<Vec<u8>, AllocError>
    requires { All (λ l. l.source < length (texts_in pages.now.items.items)) earlier.now }
    ensures { IfOk result (λ text. (twin : Option Row) × IsTwinOf name.now earlier.now twin
        × IsTwinStated pages.now.format (files_in pages.now.items.items) (texts_in pages.now.items.items) name.now twin text.items) }
{
    let Some(here) = module_called(earlier, name) else {
        return Ok(Vec::new(alloc));
    };
    let spot = Spot {
        source: here.source,
        place: here.header.name.place,
    };
    Ok(message_at(alloc, pages, spot, &Topic::Twin(name))?)
}

/// Returns the messages of a module whose name is taken: one at its name, and a note at the first module before it that has this name.
fn twice_messages(
    alloc: Global,
    pages: &Pages<'_>,
    located: &[Located],
    number: usize,
    name: &str,
) -> Result<Vec<u8>, AllocError>
    requires located { AreLocated (texts_in pages.now.items.items) located.now }
    requires inside { number < length located.now }
    ensures { IfOk result (λ text. (at : ℕ) × (place : Place) × (first : List ℕ) × (rest : List ℕ)
        × IsMessageAt pages.now.format (files_in pages.now.items.items) (texts_in pages.now.items.items) at place (twice name.now) first
        × IsNamedAt (texts_in pages.now.items.items) at place
        × HasTwinStated pages.now.format (files_in pages.now.items.items) (texts_in pages.now.items.items) number name.now rest
        × (text.items ≡ first ++ rest)) }
{
    let spot = module_spot(located, number);
    let mut text = message_at(alloc, pages, spot, &Topic::Twice(name))?;
    let note = twin_note(alloc, pages, &located[..number], name)?;
    text.extend_from_slice(note.as_slice())?;
    Ok(text)
}

/// Messages, and the number of errors that they report.
#[derive(Drop)]
pub struct Messages {
    pub text: Vec<u8>,
    pub errors: usize,
}

/// Returns the message of an import that names no module, which has this number among such imports.
fn missing_message(
    alloc: Global,
    pages: &Pages<'_>,
    located: &[Located],
    import: &MissingImport<'_>,
    number: usize,
) -> Result<Vec<u8>, AllocError>
    requires located { AreLocated (texts_in pages.now.items.items) located.now }
    requires inside { import.now.source < length (texts_in pages.now.items.items) }
    ensures { IfOk result (λ text. IsMissingStated pages.now.format (files_in pages.now.items.items) (texts_in pages.now.items.items) (import_of import.now)
        text.items) }
{
    let spot = Spot {
        source: import.source,
        place: import.place,
    };
    let near = near_for(alloc, located, number, import.name)?;
    Ok(message_at(alloc, pages, spot, &Topic::Missing(import.name, near))?)
}

/// Returns the messages of imports that name no module.
fn further_messages(
    alloc: Global,
    pages: &Pages<'_>,
    located: &[Located],
    imports: &[MissingImport<'_>],
) -> Result<Vec<u8>, AllocError>
    requires located { AreLocated (texts_in pages.now.items.items) located.now }
    requires inside { All (λ i. i.source < length (texts_in pages.now.items.items)) imports.now }
    ensures { IfOk result (λ text. AreEach (λ i t. IsMissingStated pages.now.format (files_in pages.now.items.items) (texts_in pages.now.items.items) (import_of i) t)
        imports.now text.items) }
{
    let mut text = Vec::new(alloc);
    let mut number = 0usize;
    for import in imports {
        number = number.saturating_add(1);
        let message = missing_message(alloc, pages, located, import, number)?;
        text.extend_from_slice(message.as_slice())?;
    }
    Ok(text)
}

/// Returns whether an import has this name.
fn is_named(import: &MissingImport<'_>, name: &str) -> bool
    ensures has { result ≡ true → import.now.name.now ≡ name.now }
    ensures hasnt { result ≡ false → ¬ (import.now.name.now ≡ name.now) }
{
    import.name == name
}

/// Returns the messages of all imports that name no module. Fails unless the first of them has this name.
fn missing_messages(
    alloc: Global,
    pages: &Pages<'_>,
    located: &[Located],
    name: &str,
) -> Result<Messages, MessageFault>
    requires { AreLocated (texts_in pages.now.items.items) located.now }
    ensures ok { IfOk result (λ stated. (number : ℕ) × (place : Place) × (first : List ℕ) × (rest : List ℕ)
        × IsMissingStated pages.now.format (files_in pages.now.items.items) (texts_in pages.now.items.items) (record { number = number; place = place; name = name.now }) first
        × IsNamedAt (texts_in pages.now.items.items) number place
        × AreFurtherStated pages.now.format (files_in pages.now.items.items) (texts_in pages.now.items.items) (record { number = number; place = place; name = name.now }) stated.errors rest
        × (stated.text.items ≡ first ++ rest)) }
    ensures foreign { IsErrOf result MessageFault.Foreign → HasNoMissing (texts_in pages.now.items.items) name.now }
{
    let imports = missing_imports(alloc, located)?;
    let Some((first, more)) = imports.as_slice().split_first() else {
        return Err(MessageFault::Foreign);
    };
    if !is_named(first, name) {
        return Err(MessageFault::Foreign);
    }
    let mut text = missing_message(alloc, pages, located, first, 0)?;
    let further = further_messages(alloc, pages, located, more)?;
    text.extend_from_slice(further.as_slice())?;
    let errors = imports.len();
    Ok(Messages { text, errors })
}

/// Returns the messages of a set without a plan.
fn plan_messages(
    alloc: Global,
    pages: &Pages<'_>,
    located: &[Located],
    refused: &Refused<'_>,
) -> Result<Messages, MessageFault>
    requires { AreLocated (texts_in pages.now.items.items) located.now }
    ensures ok { IfOk result (λ stated. AreRefusalMessages pages.now.format (files_in pages.now.items.items) (texts_in pages.now.items.items)
        (plan refused.now.fault refused.now.name.now refused.now.import.now) stated.errors stated.text.items) }
    ensures foreign { IsErrOf result MessageFault.Foreign → IsForeignPlan (texts_in pages.now.items.items) refused.now.fault refused.now.import.now }
{
    let name = refused.name;
    let errors = 1;
    match refused.fault {
        PlanFault::TooMany => {
            if MODULE_LIMIT >= located.len() {
                return Err(MessageFault::Foreign);
            }
            let spot = module_spot(located, MODULE_LIMIT);
            let text = message_at(alloc, pages, spot, &Topic::TooMany)?;
            Ok(Messages { text, errors })
        }
        PlanFault::Duplicate { module } => {
            if module >= located.len() {
                return Err(MessageFault::Foreign);
            }
            let text = twice_messages(alloc, pages, located, module, name)?;
            Ok(Messages { text, errors })
        }
        PlanFault::Missing { .. } => missing_messages(alloc, pages, located, refused.import),
        PlanFault::Cycle { module } => {
            if module >= located.len() {
                return Err(MessageFault::Foreign);
            }
            let text = cycle_messages(alloc, pages, located, module, name)?;
            Ok(Messages { text, errors })
        }
        PlanFault::Memory => Err(MessageFault::Memory),
    }
}

/// Returns the message of a fault of lexemes or of syntax.
///
/// `advice` is that for a fault of syntax, and isn't used for a lexical fault.
///
/// # Errors
///
/// `Foreign` if no source has the fault's number or the fault is one of the plan, and `Memory` if memory ran out.
pub fn source_message(
    alloc: Global,
    pages: &Pages<'_>,
    fault: &SetFault,
    advice: Advice<'_>,
) -> Result<Vec<u8>, MessageFault>
    requires advised { IsAdvised (texts_in pages.now.items.items) fault.now advice.hint advice.text.now advice.elsewhere }
    ensures ok { IfOk result (λ text. AreRefusalMessages pages.now.format (files_in pages.now.items.items) (texts_in pages.now.items.items)
        fault.now 1 text.items) }
    ensures foreign { IsErrOf result MessageFault.Foreign → IsOfNoSource (texts_in pages.now.items.items) fault.now }
{
    match &fault.kind {
        SetFaultKind::Lex { source, fault } => {
            if !has_source(pages, *source) {
                return Err(MessageFault::Foreign);
            }
            Ok(lex_messages(alloc, pages, *source, *fault)?)
        }
        SetFaultKind::Parse { source, fault } => {
            if !has_source(pages, *source) {
                return Err(MessageFault::Foreign);
            }
            Ok(parse_messages(alloc, pages, *source, *fault, advice)?)
        }
        SetFaultKind::Plan { .. } => Err(MessageFault::Foreign),
    }
}

// Why: docs/DECISIONS.md, "The source of a module".
/// Returns the messages of the fault for which a set is refused: one at its place, and one for each further import that names no module.
///
/// `located` has the headers of all modules if the plan has the fault, and none if a source has it. `advice` is that for a fault of syntax, and
/// isn't used for other faults. The pages are those of the sources.
///
/// # Errors
///
/// `Foreign` if the fault isn't one of these sources, and `Memory` if memory ran out.
pub fn refusal_messages(
    alloc: Global,
    pages: &Pages<'_>,
    located: &[Located],
    fault: &SetFault,
    advice: Advice<'_>,
) -> Result<Messages, MessageFault>
    requires advised { IsAdvised (texts_in pages.now.items.items) fault.now advice.hint advice.text.now advice.elsewhere }
    requires headers { AreHeadersFor (texts_in pages.now.items.items) fault.now located.now }
    ensures ok { IfOk result (λ stated. AreRefusalMessages pages.now.format (files_in pages.now.items.items) (texts_in pages.now.items.items)
        fault.now stated.errors stated.text.items) }
    ensures foreign { IsErrOf result MessageFault.Foreign → IsForeign (texts_in pages.now.items.items) fault.now }
{
    let SetFaultKind::Plan {
        fault: kind,
        module,
        import,
    } = &fault.kind
    else {
        return match source_message(alloc, pages, fault, advice) {
            Ok(text) => Ok(Messages { text, errors: 1 }),
            Err(fault) => Err(fault),
        };
    };
    let refused = Refused {
        fault: *kind,
        name: module.as_str(),
        import: import.as_str(),
    };
    plan_messages(alloc, pages, located, &refused)
}
