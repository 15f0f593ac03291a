//! The type that a definition has without its signature.
ghost use Rattle.std.specs.Prelude.{◌≡◌, ◌⊎◌, IfOk, IfSome, None, map, string_bytes, true};
ghost use Rattle.std.specs.Arc.{arc_value};
ghost use Rattle.hm_messages_changes.specs.Holes.{IsPartOf};
ghost use Rattle.hm_messages_trials.specs.Limits.{IsUsedUp};
ghost use Rattle.hm_messages_trials.specs.Signatures.{HasShownTypeAlone, HasShownTypeThere, IsUnsigned, Leads};

use crate::costs::{Effort, cost_of};
use crate::part_typing::{FUNCTION, Setting, layout_of, others_of, typed_in};
use crate::reading::TypeFault;
use crate::trial::{has_types_in, is_good_in};
use hm_messages_changes::{Layout, SourceRange, bytes_of, own_name, part_of, with_alone, without};
use hm_messages_outline::{Lexed, Run, binding_at, header_of, signature_of};
use hm_messages_types::{Question, folded, names_in};
use hm_parse_grammar::Symbol;
use hm_types_display::scheme_text;
use std::alloc::{AllocError, Global};

/// A signature that is to blame for a type fault, and the type that its definition has without it.
#[derive(Drop)]
pub struct Unsigned {
    pub signature: SourceRange,
    /// The text of the type, with names of synonyms.
    pub own: String,
    /// Whether the module is good without the signature. So that may be likelier to be wrong than the definition.
    pub leads: bool,
    /// Whether other definitions mention this one.
    pub is_used: bool,
}

/// Returns the text of the type that a definition has alone.
fn type_alone(
    alloc: Global,
    question: &Question<'_>,
    lexed: &Lexed<'_>,
    layout: &Layout<'_>,
) -> Result<Option<String>, AllocError>
    ensures { IfOk result (λ found. IfSome found (λ text. HasShownTypeAlone layout.now.source.now question.now.name.now (map arc_value question.now.imports.now)
        layout.now.name.now (string_bytes text))) }
{
    let Some(changed) = with_alone(alloc, layout)? else {
        return Ok(None);
    };
    let Some(typed) = typed_in(alloc, question, lexed, changed.as_slice(), FUNCTION)? else {
        return Ok(None);
    };
    let whole = scheme_text(alloc, &typed.scheme)?;
    Ok(Some(folded(alloc, typed.aliases.as_slice(), whole.as_str())?))
}

/// Returns the text of the type with which the module of a question exports the definition in the source without a part, if it is good there.
fn type_there(
    alloc: Global,
    question: &Question<'_>,
    lexed: &Lexed<'_>,
    layout: &Layout<'_>,
    part: SourceRange,
) -> Result<Option<String>, AllocError>
    requires { IsPartOf layout.now.source.now part }
    ensures { IfOk result (λ found. IfSome found (λ text. HasShownTypeThere layout.now.source.now question.now.name.now (map arc_value question.now.imports.now)
        layout.now.name.now part (string_bytes text))) }
{
    let changed = without(alloc, layout.source, part.from, part.to)?;
    let Some(typed) = typed_in(alloc, question, lexed, changed.as_slice(), layout.name)? else {
        return Ok(None);
    };
    let whole = scheme_text(alloc, &typed.scheme)?;
    Ok(Some(folded(alloc, typed.aliases.as_slice(), whole.as_str())?))
}

/// A signature of a definition, and whether other definitions mention this one.
#[derive(Clone, Copy)]
struct Signed {
    signature: SourceRange,
    is_used: bool,
}

// Why: docs/DECISIONS.md, "Types without a signature".
/// Returns the text of the type that a definition has without its signature. If other definitions mention it, and the module is good without the signature, it is
/// the type with which that exports the definition. Otherwise it is the type that the definition has alone.
fn type_without(
    alloc: Global,
    question: &Question<'_>,
    lexed: &Lexed<'_>,
    layout: &Layout<'_>,
    signed: Signed,
) -> Result<Option<String>, AllocError>
    requires { IsPartOf layout.now.source.now signed.signature }
    ensures { IfOk result (λ found. IfSome found (λ text. HasShownTypeThere layout.now.source.now question.now.name.now (map arc_value question.now.imports.now)
        layout.now.name.now signed.signature (string_bytes text) ⊎ HasShownTypeAlone layout.now.source.now question.now.name.now
        (map arc_value question.now.imports.now) layout.now.name.now (string_bytes text))) }
{
    if !signed.is_used {
        return Ok(type_alone(alloc, question, lexed, layout)?);
    }
    match type_there(alloc, question, lexed, layout, signed.signature)? {
        Some(own) => Ok(Some(own)),
        None => Ok(type_alone(alloc, question, lexed, layout)?),
    }
}

/// Returns the signature of a definition and the type that the definition has without it, if it has one.
fn unsigned_in(
    alloc: Global,
    question: &Question<'_>,
    lexed: &Lexed<'_>,
    layout: &Layout<'_>,
    signed: Signed,
) -> Result<Option<Unsigned>, AllocError>
    requires { IsPartOf layout.now.source.now signed.signature }
    ensures own { IfOk result (λ found. IfSome found (λ u. IsUnsigned layout.now.source.now question.now.name.now (map arc_value question.now.imports.now)
        layout.now.name.now u.signature (string_bytes u.own))) }
    ensures leads { IfOk result (λ found. IfSome found (λ u. u.leads ≡ true → Leads layout.now.source.now question.now.name.now
        (map arc_value question.now.imports.now) u.signature)) }
{
    let Some(own) = type_without(alloc, question, lexed, layout, signed)? else {
        return Ok(None);
    };
    let signature = signed.signature;
    let changed = without(alloc, layout.source, signature.from, signature.to)?;
    if !has_types_in(alloc, question, changed.as_slice(), layout.name, &[])? {
        return Ok(None);
    }
    let leads = is_good_in(alloc, question, changed.as_slice())?;
    Ok(Some(Unsigned {
        signature,
        own,
        leads,
        is_used: signed.is_used,
    }))
}

/// Returns whether the declarations of a module mention a variable outside its definition and its signature.
fn is_used_outside(lexed: &Lexed<'_>, definition: Run, signature: Run) -> bool {
    let Some(header) = header_of(lexed.outline, definition.start) else {
        return false;
    };
    let close = lexed.outline.closing(header.end.saturating_sub(1));
    let name = lexed.text(definition.start);
    (header.end..close).any(|at| {
        lexed.outline.symbol(at).is(Symbol::Var)
            && !definition.has(at)
            && !signature.has(at)
            && lexed.text(at) == name
    })
}

/// Returns the signature of the definition of a fault, whose tokens are these, and the type that the definition has without it, if it has one.
fn unsigned_at(
    alloc: Global,
    question: &Question<'_>,
    found: &TypeFault<'_>,
    binding: Run,
    signed: Signed,
) -> Result<Option<Unsigned>, AllocError>
    requires { IsPartOf question.now.source.now signed.signature }
    ensures own { IfOk result (λ found_type. IfSome found_type (λ u. IsUnsigned question.now.source.now question.now.name.now
        (map arc_value question.now.imports.now) found.now.fault.now.name u.signature (string_bytes u.own))) }
    ensures leads { IfOk result (λ found_type. IfSome found_type (λ u. u.leads ≡ true → Leads question.now.source.now question.now.name.now
        (map arc_value question.now.imports.now) u.signature)) }
{
    let lexed = found.reading.lexed(question.source);
    let others = others_of(alloc, &lexed, found)?;
    let names = names_in(alloc, &lexed, question.name)?;
    let setting = Setting {
        local: own_name(found.fault.name.as_str()),
        others: others.as_slice(),
        names: names.as_slice(),
    };
    let Some(layout) = layout_of(question.source, &lexed, found.fault, binding, setting) else {
        return Ok(None);
    };
    Ok(unsigned_in(alloc, question, &lexed, &layout, signed)?)
}

// Why: docs/DECISIONS.md, "Notes at signatures", "The order of notes".
/// Returns the signature of a definition that is a type fault, and the type that the definition has without it. `effort` is less by what that
/// costs.
///
/// None if the definition has no signature or no type without it, or if the effort doesn't pay for four trials.
///
/// # Errors
///
/// Memory ran out, or a type would have grown past the limits of the question.
pub fn unsigned_of(
    alloc: Global,
    question: &Question<'_>,
    found: &TypeFault<'_>,
    effort: &mut Effort,
) -> Result<Option<Unsigned>, AllocError>
    ensures own { IfOk result (λ found_type. IfSome found_type (λ u. IsUnsigned question.now.source.now question.now.name.now
        (map arc_value question.now.imports.now) found.now.fault.now.name u.signature (string_bytes u.own))) }
    ensures leads { IfOk result (λ found_type. IfSome found_type (λ u. u.leads ≡ true → Leads question.now.source.now question.now.name.now
        (map arc_value question.now.imports.now) u.signature)) }
    ensures none { IsUsedUp effort.old → IfOk result (λ found_type. found_type ≡ None) }
    ensures stays { IsUsedUp effort.old → IsUsedUp effort.new }
{
    if !effort.pays_for_walks(question.source) {
        return Ok(None);
    }
    let lexed = found.reading.lexed(question.source);
    let Some(binding) = binding_at(lexed.source, lexed.tokens, lexed.outline, found.fault.place)
    else {
        return Ok(None);
    };
    let Some(run) = signature_of(&lexed, binding.start) else {
        return Ok(None);
    };
    let Some(signature) = part_of(lexed.tokens, run, question.source) else {
        return Ok(None);
    };
    if bytes_of(lexed.tokens, binding, question.source).is_none() {
        return Ok(None);
    }
    let cost = cost_of(question.source, lexed.outline);
    if !effort.pays(cost) || !effort.pays(cost) || !effort.pays(cost) || !effort.pays(cost) {
        return Ok(None);
    }
    let signed = Signed {
        signature,
        is_used: is_used_outside(&lexed, binding, run),
    };
    Ok(unsigned_at(alloc, question, found, binding, signed)?)
}
