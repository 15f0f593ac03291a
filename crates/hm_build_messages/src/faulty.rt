//! The messages of a module with type faults: one for each fault, and after it a note of the change that gives the definition a type.
ghost use Rattle.std.specs.Prelude.{◌≡◌, ◌⊎◌, ◌++◌, IfOk, IfSome, List, None, OnOk, [], cond, false, map, string_bytes, true};
ghost use Rattle.std.specs.Arc.{arc_value};
ghost use Rattle.hm_messages.specs.Messages.{IsMessage};
ghost use Rattle.hm_messages.specs.Subjects.{limit, subject_of, unsigned as unsigned_subject};
ghost use Rattle.hm_messages_changes.specs.Holes.{IsPartOf};
ghost use Rattle.hm_messages_edits.specs.Edits.{HasPartsIn};
ghost use Rattle.hm_messages_edits.specs.Signatures.{IsRetyped};
ghost use Rattle.hm_messages_json.specs.Edits.{Changed};
ghost use Rattle.hm_build_messages.specs.PartMessages.{IsPartMessage};
ghost use Rattle.hm_messages_trials.specs.Limits.{IsUsedUp};
ghost use Rattle.hm_messages_trials.specs.Mends.{IsMend};
ghost use Rattle.hm_messages_trials.specs.Signatures.{IsUnsigned, Leads};
ghost use Rattle.hm_names.specs.declared.faults.Kind.TheVariants.{Untyped};
ghost use Rattle.hm_build_messages.specs.Jointly.{AreJointNotes};
ghost use Rattle.hm_build_messages.specs.Variables.{AreVariableNotes};
ghost use Rattle.hm_build_messages.specs.Explanations.{AreInTurn, ArePartTypes, AreNotes, AreOwnNotes, IsMendStated, IsNote, IsNoted, IsSignatureNote, IsStatedOf};

use crate::causes::cause_note;
use crate::joint::joint_notes;
use crate::parts::{NotedPart, part_message};
use crate::topics::{counts_of, other_of, topic_of};
use crate::variables::variable_notes;
use crate::view::FaultyModule;
use hm_lex::Place;
use hm_messages::{BothTypes, Topic, fault_message, message, reader_place};
use hm_messages_changes::SourceRange;
use hm_messages_details::Detail;
use hm_messages_edits::{changes_of, first_part, second_part, signature_changes};
use hm_messages_exporters::Looks;
use hm_messages_trials::{
    Effort, Mend, PartTypes, Reading, TypeFault, Unsigned, mend_of, part_types_of, reading_of,
    unsigned_of,
};
use hm_names::{Fault, Kind};
use std::alloc::{AllocError, Global};

/// The number of bytes from which on an expression is wide.
const WIDE: usize = 40;

/// What is left for the trials of a run and for its searches of names, and whether a note said that no trials are left.
#[derive(Clone, Copy)]
pub(crate) struct Allowance {
    pub effort: Effort,
    pub is_limit_stated: bool,
    pub looks: Looks,
}

impl Allowance {
    /// Returns the allowance for all notes of a run.
    pub fn of_run() -> Allowance
        ensures left { ¬ (IsUsedUp result.effort) }
        ensures unstated { result.is_limit_stated ≡ false }
    {
        Allowance {
            effort: Effort::of_run(),
            is_limit_stated: false,
            looks: Looks::of_run(),
        }
    }
}

/// Returns the change that gives the definition of a type fault a type, if one is found. Returns `None` if memory or the effort doesn't suffice for the search.
fn mend_for<'f>(
    alloc: Global,
    module: &FaultyModule<'f, '_>,
    found: &TypeFault<'_>,
    effort: &mut Effort,
) -> Option<Mend<'f>>
    ensures { IfSome result (λ mend. (found.now.fault.now.kind ≡ Untyped) × IsMend «module».now.question.now.source.now «module».now.question.now.name.now
        (map arc_value «module».now.question.now.imports.now) found.now.fault.now.name mend) }
{
    if found.fault.kind != Kind::Untyped {
        return None;
    }
    match mend_of(alloc, module.question, found, effort) {
        Ok(mend) => mend,
        Err(AllocError) => None,
    }
}

/// Returns the two types of the part that is to blame, if it is an expression and they are found.
fn types_for(
    alloc: Global,
    module: &FaultyModule<'_, '_>,
    found: &TypeFault<'_>,
    mend: &Mend<'_>,
    effort: &mut Effort,
) -> Option<PartTypes>
    ensures { IfSome result (λ types. ArePartTypes «module».now.question.now.source.now «module».now.question.now.name.now
        (map arc_value «module».now.question.now.imports.now) found.now.fault.now.name mend.now (string_bytes types.expected) (string_bytes types.actual)
        types.infinite) }
{
    match mend {
        Mend::Expression(part) => match part_types_of(
            alloc,
            module.question,
            found,
            *part,
            effort,
        ) {
            Ok(types) => types,
            Err(AllocError) => None,
        },
        Mend::Pattern(_) => None,
        Mend::Exchange(_, _) => None,
        Mend::Removal(_) => None,
        Mend::Sides(_, _) => None,
        Mend::Patterns(_, _) => None,
        Mend::Insertion(_, _) => None,
        Mend::Wrapped(_, _) => None,
    }
}

/// The change that gives a definition a type, and the two types of the part, if they are found.
#[derive(Drop)]
struct FaultyPart<'a> {
    mend: Mend<'a>,
    types: Option<PartTypes>,
}

/// Returns the note of the change that gives the definition a type, with this as the other place.
fn mend_text(
    alloc: Global,
    module: &FaultyModule<'_, '_>,
    definition: &str,
    mend: &Mend<'_>,
    other: Place,
) -> Result<Vec<u8>, AllocError>
    requires same { «module».now.question.now.source.now ≡ «module».now.page.now.lines }
    requires parts { HasPartsIn «module».now.question.now.source.now mend.now }
    ensures { IfOk result (λ text. IsMendStated «module».now.format «module».now.page.now.file.now «module».now.page.now.lines definition.now mend.now other text.items) }
{
    let source = module.question.source;
    let changes = changes_of(alloc, source, mend)?;
    let counts = counts_of(alloc, source, mend);
    let noted = NotedPart {
        part: first_part(mend),
        second: second_part(mend),
        topic: topic_of(definition, mend, &counts, other),
        changes: changes.as_slice(),
    };
    Ok(part_message(alloc, module, &noted)?)
}

/// Returns the note of the change that gives the definition a type, or of the two types, with this as the other place.
fn note_text(
    alloc: Global,
    module: &FaultyModule<'_, '_>,
    definition: &str,
    part: &FaultyPart<'_>,
    other: Place,
) -> Result<Vec<u8>, AllocError>
    requires same { «module».now.question.now.source.now ≡ «module».now.page.now.lines }
    requires parts { HasPartsIn «module».now.question.now.source.now part.now.mend }
    requires types { IfSome part.now.types (λ types. ArePartTypes «module».now.page.now.lines «module».now.question.now.name.now
        (map arc_value «module».now.question.now.imports.now) definition.now part.now.mend (string_bytes types.expected) (string_bytes types.actual)
        types.infinite) }
    ensures { IfOk result (λ text. IsStatedOf «module».now.format «module».now.page.now.file.now «module».now.page.now.lines
        «module».now.question.now.name.now (map arc_value «module».now.question.now.imports.now) definition.now part.now.mend other text.items) }
{
    let mend = &part.mend;
    match &part.types {
        Some(types) => {
            let both = BothTypes {
                end: other,
                expected: types.expected.as_str(),
                actual: types.actual.as_str(),
                infinite: types.infinite,
            };
            let noted = NotedPart {
                part: first_part(mend),
                second: None,
                topic: Topic::Mistyped(definition, both),
                changes: &[],
            };
            Ok(part_message(alloc, module, &noted)?)
        }
        None => Ok(mend_text(alloc, module, definition, mend, other)?),
    }
}

/// The note of the change that gives a definition a type, or no text, and whether it is before the note of the signature in any case.
#[derive(Drop)]
struct PartNote {
    text: Vec<u8>,
    is_first: bool,
    /// The part, if it is so wide that two parts inside it say more.
    wide: Option<SourceRange>,
}

/// Returns no note of a change.
fn no_part_note(alloc: Global) -> PartNote
    ensures { result.text.items ≡ [] }
{
    PartNote {
        text: Vec::new(alloc),
        is_first: false,
        wide: None,
    }
}

/// Returns the expression that is replaced, if it is wide.
fn wide_part(mend: &Mend<'_>) -> Option<SourceRange> {
    match mend {
        Mend::Expression(part) if part.to.saturating_sub(part.from) >= WIDE => Some(*part),
        _ => None,
    }
}

/// Returns whether the note of a change is before that of the signature in any case: it says what to write.
fn is_first(mend: &Mend<'_>) -> bool {
    match mend {
        Mend::Sides(_, _) | Mend::Patterns(_, _) => true,
        Mend::Insertion(_, _) | Mend::Wrapped(_, _) => true,
        _ => false,
    }
}

// Why: docs/DECISIONS.md, "Memory in a trial".
/// Returns the note of a fault, or no text.
fn note_for(
    alloc: Global,
    module: &FaultyModule<'_, '_>,
    found: &TypeFault<'_>,
    effort: &mut Effort,
) -> Result<PartNote, AllocError>
    requires { «module».now.question.now.source.now ≡ «module».now.page.now.lines }
    ensures { IfOk result (λ note. (note.text.items ≡ []) ⊎ IsNote «module».now.format «module».now.page.now.file.now «module».now.page.now.lines
        «module».now.question.now.name.now (map arc_value «module».now.question.now.imports.now) found.now.fault.now note.text.items) }
{
    let Some(mend) = mend_for(alloc, module, found, effort) else {
        return Ok(no_part_note(alloc));
    };
    let Some(place) = reader_place(module.page, other_of(&mend)) else {
        return Ok(no_part_note(alloc));
    };
    let types = types_for(alloc, module, found, &mend, effort);
    let is_first = is_first(&mend);
    let wide = wide_part(&mend);
    let part = FaultyPart { mend, types };
    let text = note_text(alloc, module, found.fault.name.as_str(), &part, place)?;
    Ok(PartNote {
        text,
        is_first,
        wide,
    })
}

/// Returns the type that the definition of a type fault has without its signature, if it is found.
fn unsigned_for(
    alloc: Global,
    module: &FaultyModule<'_, '_>,
    found: &TypeFault<'_>,
    effort: &mut Effort,
) -> Option<Unsigned>
    ensures own { IfSome result (λ own. (found.now.fault.now.kind ≡ Untyped) × IsUnsigned «module».now.question.now.source.now «module».now.question.now.name.now
        (map arc_value «module».now.question.now.imports.now) found.now.fault.now.name own.signature (string_bytes own.own)) }
    ensures leads { IfSome result (λ own. own.leads ≡ true → Leads «module».now.question.now.source.now «module».now.question.now.name.now
        (map arc_value «module».now.question.now.imports.now) own.signature) }
{
    if found.fault.kind != Kind::Untyped {
        return None;
    }
    match unsigned_of(alloc, module.question, found, effort) {
        Ok(unsigned) => unsigned,
        Err(AllocError) => None,
    }
}

/// The note of a signature, or no text, and whether it is before the other note.
#[derive(Drop)]
struct SignatureNote {
    text: Vec<u8>,
    leads: bool,
}

/// Returns no note of a signature.
fn no_note(alloc: Global) -> SignatureNote
    ensures { result.text.items ≡ [] }
{
    SignatureNote {
        text: Vec::new(alloc),
        leads: false,
    }
}

/// Returns the note of the signature of a fault, with this as the place of the signature's end.
fn signature_text(
    alloc: Global,
    module: &FaultyModule<'_, '_>,
    definition: &str,
    unsigned: &Unsigned,
    end: Place,
) -> Result<Vec<u8>, AllocError>
    requires same { «module».now.question.now.source.now ≡ «module».now.page.now.lines }
    requires part { IsPartOf «module».now.question.now.source.now unsigned.now.signature }
    ensures { IfOk result (λ text. (changes : List Changed) × IsRetyped «module».now.page.now.lines definition.now unsigned.now.signature (string_bytes unsigned.now.own) changes
        × IsPartMessage «module».now.format «module».now.page.now.file.now «module».now.page.now.lines unsigned.now.signature None
        (unsigned_subject definition.now end (string_bytes unsigned.now.own)) changes text.items) }
{
    let own = unsigned.own.as_str();
    let source = module.question.source;
    let changes = signature_changes(alloc, source, definition, unsigned.signature, own)?;
    let noted = NotedPart {
        part: unsigned.signature,
        second: None,
        topic: Topic::Unsigned(definition, end, own),
        changes: changes.as_slice(),
    };
    Ok(part_message(alloc, module, &noted)?)
}

/// Returns whether the note of a signature is first: other definitions mention this one, and that of the part isn't first in any case.
fn leads_before(unsigned: &Unsigned, is_part_first: bool) -> bool
    ensures { result ≡ true → unsigned.now.leads ≡ true }
{
    unsigned.leads && unsigned.is_used && !is_part_first
}

/// Returns the note of the signature of a fault, or no text. It doesn't lead if the note of the part is first in any case.
fn signature_note(
    alloc: Global,
    module: &FaultyModule<'_, '_>,
    found: &TypeFault<'_>,
    is_part_first: bool,
    effort: &mut Effort,
) -> Result<SignatureNote, AllocError>
    requires { «module».now.question.now.source.now ≡ «module».now.page.now.lines }
    ensures { IfOk result (λ note. (note.text.items ≡ []) ⊎ IsSignatureNote «module».now.format «module».now.page.now.file.now «module».now.page.now.lines
        «module».now.question.now.name.now (map arc_value «module».now.question.now.imports.now) found.now.fault.now note.leads note.text.items) }
{
    let Some(unsigned) = unsigned_for(alloc, module, found, effort) else {
        return Ok(no_note(alloc));
    };
    let Some(end) = reader_place(module.page, unsigned.signature.end) else {
        return Ok(no_note(alloc));
    };
    let text = signature_text(alloc, module, found.fault.name.as_str(), &unsigned, end)?;
    Ok(SignatureNote {
        text,
        leads: leads_before(&unsigned, is_part_first),
    })
}

/// Returns two texts, one after the other. The second one is first if it leads.
fn in_order(alloc: Global, first: &[u8], second: &[u8], leads: bool) -> Result<Vec<u8>, AllocError>
    ensures { IfOk result (λ text. text.items ≡ cond leads (second.now ++ first.now) (first.now ++ second.now)) }
{
    if leads {
        let mut text = Vec::from_slice(alloc, second)?;
        text.extend_from_slice(first)?;
        return Ok(text);
    }
    let mut text = Vec::from_slice(alloc, first)?;
    text.extend_from_slice(second)?;
    Ok(text)
}

/// Returns the reading of a module's source for its notes. Returns `None` if memory or the effort doesn't suffice.
fn reading_for(
    alloc: Global,
    module: &FaultyModule<'_, '_>,
    effort: &mut Effort,
) -> Option<Reading> {
    match reading_of(alloc, module.question.source, effort) {
        Ok(reading) => reading,
        Err(AllocError) => None,
    }
}

/// Where two parts are searched.
#[derive(Clone, Copy)]
enum FurtherNotes {
    Nothing,
    InDefinition,
    InPart(SourceRange),
}

/// Returns where two parts are searched, beside these notes.
fn further_beside(note: &PartNote, signed: &SignatureNote) -> FurtherNotes {
    if signed.leads {
        return FurtherNotes::Nothing;
    }
    if let Some(part) = note.wide {
        return FurtherNotes::InPart(part);
    }
    if note.text.is_empty() {
        return FurtherNotes::InDefinition;
    }
    FurtherNotes::Nothing
}

/// Returns the notes of two parts, or no text. They are further if there is no note of one part or that is wide, and if the note of the signature doesn't lead.
fn notes_of_two(
    alloc: Global,
    module: &FaultyModule<'_, '_>,
    found: &TypeFault<'_>,
    further: FurtherNotes,
    effort: &mut Effort,
) -> Result<Vec<u8>, AllocError>
    requires { «module».now.question.now.source.now ≡ «module».now.page.now.lines }
    ensures { IfOk result (λ text. (text.items ≡ []) ⊎ AreJointNotes «module».now.format «module».now.page.now.file.now
        «module».now.page.now.lines «module».now.question.now.name.now (map arc_value «module».now.question.now.imports.now) found.now.fault.now text.items) }
{
    match further {
        FurtherNotes::Nothing => Ok(Vec::new(alloc)),
        FurtherNotes::InDefinition => Ok(joint_notes(alloc, module, found, None, effort)?),
        FurtherNotes::InPart(part) => Ok(joint_notes(alloc, module, found, Some(part), effort)?),
    }
}

/// Returns a note, or no text if there are notes in place of it.
fn kept(alloc: Global, note: Vec<u8>, others: &[u8]) -> Vec<u8>
    ensures { ((result.items ≡ note.items) × (others.now ≡ [])) ⊎ (result.items ≡ []) }
{
    if others.is_empty() {
        return note;
    }
    Vec::new(alloc)
}

/// Returns the notes of type variables that are named like types, if this note of the signature isn't empty.
fn notes_of_variables(
    alloc: Global,
    module: &FaultyModule<'_, '_>,
    found: &TypeFault<'_>,
    signed: &[u8],
) -> Result<Vec<u8>, AllocError>
    requires { «module».now.question.now.source.now ≡ «module».now.page.now.lines }
    ensures { IfOk result (λ text. (text.items ≡ []) ⊎ ((¬ (signed.now ≡ [])) × AreVariableNotes «module».now.format «module».now.page.now.file.now
        «module».now.page.now.lines «module».now.question.now.name.now (map arc_value «module».now.question.now.imports.now) found.now.fault.now.name text.items)) }
{
    if signed.is_empty() {
        return Ok(Vec::new(alloc));
    }
    Ok(variable_notes(alloc, module, found.fault.name.as_str())?)
}

// Why: docs/DECISIONS.md, "The order of notes", "Two slips".
/// Returns the notes of a fault by itself, one after the other.
fn own_notes(
    alloc: Global,
    module: &FaultyModule<'_, '_>,
    found: &TypeFault<'_>,
    effort: &mut Effort,
) -> Result<Vec<u8>, AllocError>
    requires { «module».now.question.now.source.now ≡ «module».now.page.now.lines }
    ensures { IfOk result (λ text. AreOwnNotes «module».now.format «module».now.page.now.file.now «module».now.page.now.lines
        «module».now.question.now.name.now (map arc_value «module».now.question.now.imports.now) found.now.fault.now text.items) }
{
    let note = note_for(alloc, module, found, effort)?;
    let signed = signature_note(alloc, module, found, note.is_first, effort)?;
    let further = further_beside(&note, &signed);
    let both = notes_of_two(alloc, module, found, further, effort)?;
    let note = kept(alloc, note.text, both.as_slice());
    let variables = notes_of_variables(alloc, module, found, signed.text.as_slice())?;
    let mut text = in_order(alloc, note.as_slice(), signed.text.as_slice(), signed.leads)?;
    text.extend_from_slice(both.as_slice())?;
    text.extend_from_slice(variables.as_slice())?;
    Ok(text)
}

// Why: docs/DECISIONS.md, "Faults that follow".
/// Returns the notes of a fault: that of the signature from which it follows, or else its own.
fn notes_of(
    alloc: Global,
    module: &FaultyModule<'_, '_>,
    found: &TypeFault<'_>,
    effort: &mut Effort,
) -> Result<Vec<u8>, AllocError>
    requires { «module».now.question.now.source.now ≡ «module».now.page.now.lines }
    ensures { IfOk result (λ text. AreNotes «module».now.format «module».now.page.now.file.now «module».now.page.now.lines
        «module».now.question.now.name.now (map arc_value «module».now.question.now.imports.now) found.now.fault.now text.items) }
{
    let note = cause_note(alloc, module, found, effort)?;
    match note {
        Some(note) => Ok(note),
        None => Ok(own_notes(alloc, module, found, effort)?),
    }
}

/// Returns the notes of a fault, or no text without a reading of the module's source.
fn notes_for(
    alloc: Global,
    module: &FaultyModule<'_, '_>,
    reading: Option<&Reading>,
    fault: &Fault,
    effort: &mut Effort,
) -> Result<Vec<u8>, AllocError>
    requires { «module».now.question.now.source.now ≡ «module».now.page.now.lines }
    ensures { IfOk result (λ text. (text.items ≡ []) ⊎ AreNotes «module».now.format «module».now.page.now.file.now «module».now.page.now.lines
        «module».now.question.now.name.now (map arc_value «module».now.question.now.imports.now) fault.now text.items) }
{
    let Some(reading) = reading else {
        return Ok(Vec::new(alloc));
    };
    let found = TypeFault {
        fault,
        faults: module.faults,
        reading,
    };
    Ok(notes_of(alloc, module, &found, effort)?)
}

/// Returns the note that the limit on trials is reached.
fn limit_note(
    alloc: Global,
    module: &FaultyModule<'_, '_>,
    fault: &Fault,
) -> Result<Vec<u8>, AllocError>
    ensures { IfOk result (λ text. IsMessage «module».now.format «module».now.page.now.file.now «module».now.page.now.lines fault.now.place limit text.items) }
{
    let topic = Topic::Limit;
    Ok(message(alloc, module.format, module.page, fault.place, &topic)?)
}

// Why: docs/DECISIONS.md, "The limit's note".
/// Returns the message of a fault with its notes, which need the reading of the module's source. There are none if an earlier note said that the limit is reached.
fn fault_text(
    alloc: Global,
    module: &FaultyModule<'_, '_>,
    reading: Option<&Reading>,
    fault: &Fault,
    allowance: &mut Allowance,
) -> Result<Vec<u8>, AllocError>
    requires { «module».now.question.now.source.now ≡ «module».now.page.now.lines }
    ensures stated { IfOk result (λ text. IsNoted «module».now.format «module».now.page.now.file.now «module».now.page.now.lines
        «module».now.question.now.name.now (map arc_value «module».now.question.now.imports.now) fault.now allowance.old.is_limit_stated
        allowance.new.is_limit_stated text.items) }
    ensures reached { allowance.old.is_limit_stated ≡ false → allowance.new.is_limit_stated ≡ true → IsUsedUp allowance.new.effort }
    ensures silent { OnOk result (allowance.old.is_limit_stated ≡ false → allowance.new.is_limit_stated ≡ false → ¬ (IsUsedUp allowance.new.effort)) }
{
    let mut text = fault_message(alloc, module.format, module.page, fault, Detail::Nothing)?;
    if allowance.is_limit_stated {
        return Ok(text);
    }
    let notes = notes_for(alloc, module, reading, fault, &mut allowance.effort)?;
    text.extend_from_slice(notes.as_slice())?;
    if !allowance.effort.is_used_up() {
        return Ok(text);
    }
    let last = limit_note(alloc, module, fault)?;
    text.extend_from_slice(last.as_slice())?;
    allowance.is_limit_stated = true;
    Ok(text)
}

/// Returns the messages of the faults of a module, in order.
pub(crate) fn noted_messages(
    alloc: Global,
    module: &FaultyModule<'_, '_>,
    allowance: &mut Allowance,
) -> Result<Vec<u8>, AllocError>
    requires { «module».now.question.now.source.now ≡ «module».now.page.now.lines }
    ensures { IfOk result (λ text. AreInTurn (IsNoted «module».now.format «module».now.page.now.file.now «module».now.page.now.lines
        «module».now.question.now.name.now (map arc_value «module».now.question.now.imports.now)) «module».now.faults.now allowance.old.is_limit_stated
        allowance.new.is_limit_stated text.items) }
{
    let reading = reading_for(alloc, module, &mut allowance.effort);
    let mut text = Vec::new(alloc);
    for fault in module.faults {
        let message = fault_text(alloc, module, reading.as_ref(), fault, allowance)?;
        text.extend_from_slice(message.as_slice())?;
    }
    Ok(text)
}
