//! The notes of type variables in the signature of a type fault's definition that are named like types in scope.
ghost use Rattle.std.specs.Prelude.{◌≡◌, ◌⊎◌, ◌∷◌, IfOk, List, [], map};
ghost use Rattle.std.specs.Arc.{arc_value};
ghost use Rattle.hm_types.specs.StandardPrelude.{prelude_interface};
ghost use Rattle.hm_syntax.specs.Lists.{declarations};
ghost use Rattle.hm_names.specs.Bindings.{IsScopeOf, Pair};
ghost use Rattle.hm_names.specs.Imports.{AreImportsOf};
ghost use Rattle.hm_messages.specs.Messages.{AreEach};
ghost use Rattle.hm_messages_variables.specs.LikeTypes.{like_types};
ghost use Rattle.hm_build_messages.specs.Variables.{AreVariableNotes, IsVariableNote};

use crate::view::FaultyModule;
use hm_messages::{Topic, message};
use hm_messages_trials::module_in;
use hm_messages_variables::{LikeType, like_types};
use hm_scope_imports::{are_imports_of, scope_of};
use hm_syntax::Module;
use hm_types::Interface;
use std::alloc::{AllocError, Global};

/// Returns the note of a type variable that is named like a type.
fn variable_note(
    alloc: Global,
    module: &FaultyModule<'_, '_>,
    like: &LikeType<'_>,
) -> Result<Vec<u8>, AllocError>
    ensures { IfOk result (λ text. IsVariableNote «module».now.format «module».now.page.now.file.now «module».now.page.now.lines like.now text.items) }
{
    let topic = Topic::TypeVariable(like.variable(), like.type_name());
    Ok(message(alloc, module.format, module.page, like.place(), &topic)?)
}

/// Returns the notes of type variables that are named like types, in order.
fn notes_of(
    alloc: Global,
    module: &FaultyModule<'_, '_>,
    likes: &[LikeType<'_>],
) -> Result<Vec<u8>, AllocError>
    ensures { IfOk result (λ text. AreEach (IsVariableNote «module».now.format «module».now.page.now.file.now «module».now.page.now.lines) likes.now text.items) }
{
    let mut text = Vec::new(alloc);
    for like in likes {
        let note = variable_note(alloc, module, like)?;
        text.extend_from_slice(note.as_slice())?;
    }
    Ok(text)
}

/// Returns the notes of the type variables of a definition that are named like types in the scope of its module.
fn notes_in(
    alloc: Global,
    module: &FaultyModule<'_, '_>,
    program: &Module,
    definition: &str,
) -> Result<Vec<u8>, AllocError>
    requires { AreImportsOf program.now (map arc_value «module».now.question.now.imports.now) }
    ensures { IfOk result (λ text. (scope : List Pair) × IsScopeOf program.now (prelude_interface ∷ map arc_value «module».now.question.now.imports.now) scope
        × AreEach (IsVariableNote «module».now.format «module».now.page.now.file.now «module».now.page.now.lines)
        (like_types scope definition.now (declarations program.now.decls)) text.items) }
{
    let question = module.question;
    let prelude: &Interface = question.prelude.interface();
    let scope = scope_of(alloc, program, prelude, question.imports)?;
    let likes = like_types(alloc, &scope, program.decls.as_slice(), definition)?;
    Ok(notes_of(alloc, module, likes.as_slice())?)
}

// Why: docs/DECISIONS.md, "Types in small letters".
/// Returns the notes of type variables in the signature of a definition that are named like types in scope.
pub(crate) fn variable_notes(
    alloc: Global,
    module: &FaultyModule<'_, '_>,
    definition: &str,
) -> Result<Vec<u8>, AllocError>
    requires { «module».now.question.now.source.now ≡ «module».now.page.now.lines }
    ensures { IfOk result (λ text. (text.items ≡ []) ⊎ AreVariableNotes «module».now.format «module».now.page.now.file.now «module».now.page.now.lines
        «module».now.question.now.name.now (map arc_value «module».now.question.now.imports.now) definition.now text.items) }
{
    let question = module.question;
    let Some(program) = module_in(alloc, question.source, question.name)? else {
        return Ok(Vec::new(alloc));
    };
    if !are_imports_of(alloc, &program, question.imports)? {
        return Ok(Vec::new(alloc));
    }
    Ok(notes_in(alloc, module, &program, definition)?)
}
