//! The two types of a part of a definition.
ghost use Rattle.std.specs.Prelude.{◌≡◌, ◌≤◌, ◌++◌, ◌∷◌, [], All, IfOk, IfSome, None, codes, false, length, map, string_bytes, true};
ghost use Rattle.std.specs.Arc.{arc_value};
ghost use Rattle.hm_types.specs.Schemes.{HasArities, HasNoRigid};
ghost use Rattle.hm_types.specs.Shape.{type_of};
ghost use Rattle.hm_types.specs.declared.monotypes.Ty.{Ty as Tree};
ghost use Rattle.hm_types_display.specs.Texts.{scheme_text_of};
ghost use Rattle.hm_messages_types.specs.Aliases.{alias_of as named_type};
ghost use Rattle.hm_messages_trials.specs.PartTypes.{from_pair, AreTextsOf, ExportsIn, IsExported, from_three, text_in};
ghost use Rattle.hm_messages_trials.specs.Limits.{IsUsedUp};
ghost use Rattle.hm_messages_types.specs.CommonInstances.{HaveCommonInstance};
ghost use Rattle.hm_messages_types.specs.Shown.{IsFolded};
ghost use Rattle.hm_messages_type_names.specs.TypeNames.{IsTypeName};
ghost use Rattle.hm_names.specs.Imports.{AreImportsOf};
ghost use Rattle.hm_types.specs.StandardPrelude.{prelude_interface};
ghost use Rattle.hm_messages_trials.specs.ShownTypes.{AreShownOf, ExportsNames, HasFoldedTypes, HasShownTypes};

use crate::costs::{Effort, cost_of};
use crate::reading::TypeFault;
use crate::signed::is_signed_in;
use crate::trial::judged;
use hm_messages_changes::{
    Layout, Local, Other, SourceRange, Span, bytes_of, local_of, signed_heads, with_probe,
};
use hm_messages_outline::{Lexed, Run, binding_at, header_of, one, signature_of};
use hm_messages_type_names::{Home, type_names};
use hm_messages_types::{
    Alias, Question, Texts, are_apart, between, folded, names_in, need_infinite, text_of,
    with_letters,
};
use hm_names::Fault;
use hm_parse_grammar::Symbol;
use hm_types::{Head, Interface, Scheme, Ty, Types};
use hm_types_display::scheme_text;
use hm_verdicts::Verdict;
use std::alloc::{AllocError, Global};

/// The name of the function that takes a value of each type.
pub(crate) const FUNCTION: &str = "part'types";

/// The texts of the two types of a part of a definition, with the same names for the same variables, and with names of synonyms.
#[derive(Drop)]
pub struct PartTypes {
    /// The type that is expected in its place.
    pub expected: String,
    /// The type that it has.
    pub actual: String,
    /// Whether no type is both because it would contain itself.
    pub infinite: bool,
}

/// Returns the scheme with which an interface exports a variable.
fn exported_scheme(
    alloc: Global,
    interface: &Interface,
    variable: &str,
) -> Result<Option<Scheme>, AllocError>
    ensures { IfOk result (λ found. IfSome found (IsExported interface.now variable.now)) }
{
    for entry in interface.values() {
        if entry.name.as_str() == variable {
            return Ok(Some(entry.scheme.copy(alloc)?));
        }
    }
    Ok(None)
}

/// A scheme that a module exports, and its names for types.
#[derive(Drop)]
pub(crate) struct Typed {
    pub scheme: Scheme,
    pub aliases: Vec<Alias>,
}

/// Returns the scheme with which an interface exports a variable, and the names for types.
fn typed_by(
    alloc: Global,
    home: &Home<'_, '_>,
    interface: &Interface,
    variable: &str,
) -> Result<Option<Typed>, AllocError>
    requires { AreImportsOf home.now.«module».now (map arc_value home.now.question.now.imports.now) }
    ensures scheme { IfOk result (λ found. IfSome found (λ typed. IsExported interface.now variable.now typed.scheme)) }
    ensures names { IfOk result (λ found. IfSome found (λ typed. All (λ a. IsTypeName home.now.«module».now (prelude_interface ∷ map arc_value home.now.question.now.imports.now)
        home.now.question.now.name.now interface.now (named_type a)) typed.aliases.items)) }
{
    let Some(scheme) = exported_scheme(alloc, interface, variable)? else {
        return Ok(None);
    };
    let aliases = type_names(alloc, home, interface, scheme.body())?;
    Ok(Some(Typed { scheme, aliases }))
}

/// Returns the scheme with which the module of a question exports a variable in a changed source, and its names for types, if it is good there.
pub(crate) fn typed_in(
    alloc: Global,
    question: &Question<'_>,
    lexed: &Lexed<'_>,
    changed: &[u8],
    variable: &str,
) -> Result<Option<Typed>, AllocError>
    ensures scheme { IfOk result (λ found. IfSome found (λ typed. ExportsIn changed.now question.now.name.now (map arc_value question.now.imports.now)
        variable.now typed.scheme)) }
    ensures names { IfOk result (λ found. IfSome found (λ typed. ExportsNames changed.now question.now.name.now (map arc_value question.now.imports.now)
        (map named_type typed.aliases.items))) }
{
    let Some(outcome) = judged(alloc, question, changed)? else {
        return Ok(None);
    };
    let home = Home {
        question,
        lexed,
        module: outcome.module(),
    };
    match outcome.verdict() {
        Verdict::Good(interface) => Ok(typed_by(alloc, &home, interface, variable)?),
        Verdict::Faulty(_) => Ok(None),
    }
}

/// Returns types, and after them a copy of one more.
fn with_copy(alloc: Global, types: Vec<Ty>, ty: &Ty) -> Result<Vec<Ty>, AllocError>
    ensures { IfOk result (λ all. (copy : Tree) × (all.items ≡ types.items ++ copy ∷ []) × (type_of copy ≡ type_of ty.now)) }
{
    let mut all = types;
    let copy = ty.copy(alloc)?;
    all.push(copy)?;
    Ok(all)
}

/// Returns the type of a function from a pair to `()`.
fn function_from_pair(alloc: Global, first: &Ty, second: &Ty) -> Result<Ty, AllocError>
    ensures { IfOk result (λ t. type_of t ≡ from_pair (type_of first.now) (type_of second.now)) }
{
    let parts = with_copy(alloc, Vec::new(alloc), first)?;
    let parts = with_copy(alloc, parts, second)?;
    let pair = Ty::App(Head::Tuple(2), Types::new(parts));
    let unit = Ty::App(Head::Unit, Types::new(Vec::new(alloc)));
    Ok(Ty::function(alloc, pair, unit)?)
}

/// The types that the function takes.
#[derive(Clone, Copy)]
struct Taken<'a> {
    /// The type of the definition.
    own: &'a Ty,
    expected: &'a Ty,
    actual: &'a Ty,
}

/// Returns the type of the function that takes these.
fn function_of(alloc: Global, taken: &Taken<'_>) -> Result<Ty, AllocError>
    ensures { IfOk result (λ t. type_of t ≡ from_three (type_of taken.now.own.now) (type_of taken.now.expected.now) (type_of taken.now.actual.now)) }
{
    let parts = with_copy(alloc, Vec::new(alloc), taken.own)?;
    let parts = with_copy(alloc, parts, taken.expected)?;
    let parts = with_copy(alloc, parts, taken.actual)?;
    let three = Ty::App(Head::Tuple(3), Types::new(parts));
    let unit = Ty::App(Head::Unit, Types::new(Vec::new(alloc)));
    Ok(Ty::function(alloc, three, unit)?)
}

/// Returns the three arguments of the first argument of a type.
fn inner_arguments(body: &Ty) -> Option<Taken<'_>> {
    let Ty::App(_, sides) = body else {
        return None;
    };
    let Some(Ty::App(_, parts)) = sides.as_slice().first() else {
        return None;
    };
    let [own, expected, actual] = parts.as_slice() else {
        return None;
    };
    Some(Taken {
        own,
        expected,
        actual,
    })
}

/// Returns what a function with this type takes, if it is one of three values to `()`.
fn taken_by(alloc: Global, body: &Ty) -> Result<Option<Taken<'_>>, AllocError>
    ensures { IfOk result (λ found. IfSome found (λ r. type_of body.now ≡ from_three (type_of r.own.now) (type_of r.expected.now) (type_of r.actual.now))) }
{
    let Some(taken) = inner_arguments(body) else {
        return Ok(None);
    };
    let function = function_of(alloc, &taken)?;
    if body.is_same(&function) {
        return Ok(Some(taken));
    }
    Ok(None)
}

/// The texts of the type of a definition and of the two types of a part of it, with the same letters for the same variables.
#[derive(Drop)]
struct ThreeTypes {
    own: String,
    expected: String,
    actual: String,
    infinite: bool,
}

/// The texts of a definition's type and of the expected type.
#[derive(Drop)]
struct Front {
    own: String,
    expected: String,
}

/// Returns the text of the type of a function from a pair to `()`, if its letters are in order.
fn pair_text(alloc: Global, first: &Ty, second: &Ty) -> Result<Option<String>, AllocError>
    requires not_rigid { HasNoRigid (type_of first.now) × HasNoRigid (type_of second.now) }
    requires arities { HasArities (type_of first.now) × HasArities (type_of second.now) }
    ensures { IfOk result (λ found. IfSome found (λ text. string_bytes text
        ≡ scheme_text_of (record { vars = 0; body = from_pair (type_of first.now) (type_of second.now) }))) }
{
    let pair = function_from_pair(alloc, first, second)?;
    Ok(text_of(alloc, &pair)?)
}

/// Returns the texts of the first two types that a function with this scheme takes, if their letters are in order.
fn front_of(alloc: Global, scheme: &Scheme, taken: &Taken<'_>) -> Result<Option<Front>, AllocError>
    requires not_rigid { HasNoRigid (type_of taken.now.own.now) × HasNoRigid (type_of taken.now.expected.now) }
    requires arities { HasArities (type_of taken.now.own.now) × HasArities (type_of taken.now.expected.now) }
    ensures own { IfOk result (λ found. IfSome found (λ f. string_bytes f.own ≡ text_in scheme.now (type_of taken.now.own.now))) }
    ensures expected { IfOk result (λ found. IfSome found (λ f. string_bytes f.expected ≡ text_in scheme.now (type_of taken.now.expected.now))) }
{
    let Some(own) = text_of(alloc, taken.own)? else {
        return Ok(None);
    };
    let Some(whole) = pair_text(alloc, taken.own, taken.expected)? else {
        return Ok(None);
    };
    let front = format!(in alloc; "({own}, ")?;
    match between(alloc, whole.as_bytes(), front.as_bytes(), b") -> ()")? {
        Some(expected) => Ok(Some(Front { own, expected })),
        None => Ok(None),
    }
}

/// Returns the text of the last of the types that a function with this scheme takes, after the texts of the others.
fn last_text(
    alloc: Global,
    scheme: &Scheme,
    own: &str,
    expected: &str,
) -> Result<Option<String>, AllocError>
    ensures { IfOk result (λ found. IfSome found (λ last. scheme_text_of scheme.now
        ≡ (codes "(" ++ own.now ++ codes ", " ++ expected.now ++ codes ", ") ++ (string_bytes last ++ codes ") -> ()"))) }
{
    let whole = scheme_text(alloc, scheme)?;
    let front = format!(in alloc; "({own}, {expected}, ")?;
    Ok(between(alloc, whole.as_bytes(), front.as_bytes(), b") -> ()")?)
}

// Why: docs/DECISIONS.md, "Types that agree".
/// Returns whether a note may have the two types that a function with this scheme takes after a definition's.
fn may_have(
    alloc: Global,
    scheme: &Scheme,
    taken: &Taken<'_>,
    is_signed: bool,
) -> Result<bool, AllocError>
    requires { scheme.now.body ≡ from_three (type_of taken.now.own.now) (type_of taken.now.expected.now) (type_of taken.now.actual.now) }
    ensures { IfOk result (λ may. may ≡ true → is_signed ≡ false → ¬ (HaveCommonInstance (type_of taken.now.expected.now) (type_of taken.now.actual.now))) }
{
    if is_signed {
        return Ok(true);
    }
    let _body = scheme.body();
    Ok(are_apart(alloc, scheme.vars(), taken.expected, taken.actual)?)
}

// Why: docs/DECISIONS.md, "The text of two types".
/// Returns the texts of the types that a function with this scheme takes, if those after a definition's differ. Without a signature these two have no common instance.
fn texts_of(
    alloc: Global,
    scheme: &Scheme,
    is_signed: bool,
) -> Result<Option<ThreeTypes>, AllocError>
    ensures { IfOk result (λ found. IfSome found (λ types. AreTextsOf scheme.now is_signed (string_bytes types.own) (string_bytes types.expected)
        (string_bytes types.actual) types.infinite)) }
{
    let Some(taken) = taken_by(alloc, scheme.body())? else {
        return Ok(None);
    };
    if taken.expected.is_same(taken.actual) {
        return Ok(None);
    }
    if !may_have(alloc, scheme, &taken, is_signed)? {
        return Ok(None);
    }
    let infinite = need_infinite(taken.expected, taken.actual);
    let Some(Front { own, expected }) = front_of(alloc, scheme, &taken)? else {
        return Ok(None);
    };
    match last_text(alloc, scheme, own.as_str(), expected.as_str())? {
        Some(actual) => Ok(Some(ThreeTypes {
            own,
            expected,
            actual,
            infinite,
        })),
        None => Ok(None),
    }
}

/// Returns where the export list of the module begins in which a token is, if it has one.
fn export_list(lexed: &Lexed<'_>, token: usize) -> Option<usize> {
    let header = header_of(lexed.outline, token)?;
    let open = lexed.outline.find(header.start, header.end, Symbol::Open)?;
    Some(lexed.end(one(open)))
}

// Why: docs/DECISIONS.md, "Other faults".
/// Returns the definitions of the other type faults of a module, in order.
pub(crate) fn others_of<'a>(
    alloc: Global,
    lexed: &Lexed<'_>,
    found: &TypeFault<'a>,
) -> Result<Vec<Other<'a>>, AllocError> {
    let mut others = Vec::new(alloc);
    for fault in found.faults {
        if fault.place == found.fault.place {
            continue;
        }
        let binding = binding_at(lexed.source, lexed.tokens, lexed.outline, fault.place);
        if let Some(run) = binding {
            if let Some((from, to)) = bytes_of(lexed.tokens, run, lexed.source) {
                others.push(Other {
                    name: fault.name.as_str(),
                    from,
                    to,
                })?;
            }
        }
    }
    Ok(others)
}

/// Returns how many of these definitions, which are in order, begin before a byte.
fn count_before(others: &[Other<'_>], byte: usize) -> usize
    ensures { result ≤ length others.now }
{
    others.iter().take_while(|other| other.from < byte).count()
}

/// What else is changed where a definition is replaced: how it is written where it is local, the other definitions that are holes, and the names that are added
/// to the export list.
#[derive(Clone, Copy)]
pub(crate) struct Setting<'a> {
    pub local: Local<'a>,
    pub others: &'a [Other<'a>],
    pub names: &'a [Span],
}

/// Returns where the definition of a fault is in a source, whose tokens these are, with what is changed beside it.
pub(crate) fn layout_of<'a>(
    source: &'a [u8],
    lexed: &Lexed<'_>,
    fault: &'a Fault,
    binding: Run,
    setting: Setting<'a>,
) -> Option<Layout<'a>>
    ensures source { IfSome result (λ layout. layout.source.now ≡ source.entry.now) }
    ensures name { IfSome result (λ layout. layout.name.now ≡ fault.entry.now.name) }
{
    let (from, to) = bytes_of(lexed.tokens, binding, source)?;
    let others = setting.others;
    let count = count_before(others, from);
    Some(Layout {
        source,
        name: fault.name.as_str(),
        local: setting.local,
        exported: export_list(lexed, binding.start),
        names: setting.names,
        whole: Span { from, to },
        before: &others[..count],
        after: &others[count..],
    })
}

/// Returns the texts of types with names for some of them.
fn folded_types(
    alloc: Global,
    types: &ThreeTypes,
    aliases: &[Alias],
) -> Result<ThreeTypes, AllocError>
    ensures own { IfOk result (λ shown. IsFolded (map named_type aliases.now) (string_bytes types.now.own) (string_bytes shown.own)) }
    ensures expected { IfOk result (λ shown. IsFolded (map named_type aliases.now) (string_bytes types.now.expected) (string_bytes shown.expected)) }
    ensures actual { IfOk result (λ shown. IsFolded (map named_type aliases.now) (string_bytes types.now.actual) (string_bytes shown.actual)) }
    ensures infinite { IfOk result (λ shown. shown.infinite ≡ types.now.infinite) }
{
    let own = folded(alloc, aliases, types.own.as_str())?;
    let expected = folded(alloc, aliases, types.expected.as_str())?;
    let actual = folded(alloc, aliases, types.actual.as_str())?;
    Ok(ThreeTypes {
        own,
        expected,
        actual,
        infinite: types.infinite,
    })
}

/// Returns the types of a definition and of a part of it for a layout.
fn types_for(
    alloc: Global,
    question: &Question<'_>,
    lexed: &Lexed<'_>,
    layout: &Layout<'_>,
    part: SourceRange,
) -> Result<Option<ThreeTypes>, AllocError>
    ensures { IfOk result (λ found. IfSome found (λ types. HasFoldedTypes layout.now.source.now question.now.name.now (map arc_value question.now.imports.now)
        layout.now.name.now part (string_bytes types.own) (string_bytes types.expected) (string_bytes types.actual) types.infinite)) }
{
    let Some(changed) = with_probe(alloc, layout, part)? else {
        return Ok(None);
    };
    let Some(typed) = typed_in(alloc, question, lexed, changed.as_slice(), FUNCTION)? else {
        return Ok(None);
    };
    let is_signed = is_signed_in(alloc, question, layout.source, layout.name)?;
    let Some(types) = texts_of(alloc, &typed.scheme, is_signed)? else {
        return Ok(None);
    };
    Ok(Some(folded_types(alloc, &types, typed.aliases.as_slice())?))
}

/// Returns the types of a part of a definition with the letters of its signature, or as they are if there is none or if the definition's type isn't shown as it is
/// written there.
fn shown_types(
    alloc: Global,
    lexed: &Lexed<'_>,
    definition: &str,
    signature: Option<Run>,
    types: ThreeTypes,
) -> Result<PartTypes, AllocError>
    ensures infinite { IfOk result (λ shown. shown.infinite ≡ types.infinite) }
    ensures types { IfOk result (λ shown. AreShownOf lexed.now.source.now definition.now (string_bytes types.own) (string_bytes types.expected) (string_bytes types.actual)
        (string_bytes shown.expected) (string_bytes shown.actual)) }
{
    let infinite = types.infinite;
    if let Some(signature) = signature {
        let texts = Texts {
            own: types.own.as_str(),
            expected: types.expected.as_str(),
            actual: types.actual.as_str(),
        };
        if let Some(lettered) = with_letters(alloc, lexed, signature, definition, &texts)? {
            return Ok(PartTypes {
                expected: lettered.expected,
                actual: lettered.actual,
                infinite,
            });
        }
    }
    Ok(PartTypes {
        expected: types.expected,
        actual: types.actual,
        infinite,
    })
}

/// Returns the types of a part of the definition of a fault, whose tokens are these.
fn types_at(
    alloc: Global,
    question: &Question<'_>,
    found: &TypeFault<'_>,
    binding: Run,
    part: SourceRange,
) -> Result<Option<PartTypes>, AllocError>
    ensures { IfOk result (λ both. IfSome both (λ types. HasShownTypes question.now.source.now question.now.name.now (map arc_value question.now.imports.now)
        found.now.fault.now.name part (string_bytes types.expected) (string_bytes types.actual) types.infinite)) }
{
    let lexed = found.reading.lexed(question.source);
    let others = others_of(alloc, &lexed, found)?;
    let names = names_in(alloc, &lexed, question.name)?;
    let heads = signed_heads(alloc, &lexed, binding)?;
    let setting = Setting {
        local: local_of(found.fault.name.as_str(), heads.as_slice(), part.from),
        others: others.as_slice(),
        names: names.as_slice(),
    };
    let Some(layout) = layout_of(question.source, &lexed, found.fault, binding, setting) else {
        return Ok(None);
    };
    let Some(types) = types_for(alloc, question, &lexed, &layout, part)? else {
        return Ok(None);
    };
    let signature = signature_of(&lexed, binding.start);
    let definition = found.fault.name.as_str();
    Ok(Some(shown_types(alloc, &lexed, definition, signature, types)?))
}

// Why: docs/DECISIONS.md, "Both types".
/// Returns the two types of a part of a definition that is a type fault: the one that it has, and the one that is expected in its place. `effort`
/// is less by what that costs.
///
/// None if the definition has no type with a value of the expected type in its place, if it has no signature and the two types have a common instance, or if the
/// effort doesn't pay for a trial.
///
/// # Errors
///
/// Memory ran out, or a type would have grown past the limits of the question.
pub fn part_types_of(
    alloc: Global,
    question: &Question<'_>,
    found: &TypeFault<'_>,
    part: SourceRange,
    effort: &mut Effort,
) -> Result<Option<PartTypes>, AllocError>
    ensures types { IfOk result (λ both. IfSome both (λ types. HasShownTypes question.now.source.now question.now.name.now (map arc_value question.now.imports.now)
        found.now.fault.now.name part (string_bytes types.expected) (string_bytes types.actual) types.infinite)) }
    ensures none { IsUsedUp effort.old → IfOk result (λ both. both ≡ None) }
    ensures stays { IsUsedUp effort.old → IsUsedUp effort.new }
{
    if !effort.pays_for_walks(question.source) {
        return Ok(None);
    }
    let lexed = found.reading.lexed(question.source);
    let Some(binding) = binding_at(lexed.source, lexed.tokens, lexed.outline, found.fault.place)
    else {
        return Ok(None);
    };
    if bytes_of(lexed.tokens, binding, question.source).is_none() {
        return Ok(None);
    }
    if !effort.pays(cost_of(question.source, lexed.outline)) {
        return Ok(None);
    }
    Ok(types_at(alloc, question, found, binding, part)?)
}
