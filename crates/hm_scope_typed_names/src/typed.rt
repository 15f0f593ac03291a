//! Names with their types.
ghost use Rattle.std.specs.Prelude.{◌≡◌, ◌==◌, [], ◌∷◌, ◌++◌, IfOk, List, OnOk, map, option_map, option_to_list, string_bytes};
ghost use Rattle.std.specs.Arc.{arc_value};
ghost use Rattle.std.specs.List.{AllZip, filter, starts_with};
ghost use Rattle.hm_names.specs.Bindings.{Pair};
ghost use Rattle.hm_scope_imports.specs.Apart.{AreNamedApart};
ghost use Rattle.hm_scope_typed_names.specs.Typed.{AreTypedNames, HasType, IsTypedName, begins, written_text};

use crate::schemes::scheme_among;
use hm_names::Namespace;
use hm_scope_imports::interfaces_of;
use hm_scope_names::meant_names;
use hm_scope_tables::Binding;
use hm_syntax::Module;
use hm_types::Interface;
use hm_types_display::scheme_text;
use std::alloc::{AllocError, Global};
use std::sync::Arc;

/// A name that means one entity, with its type.
#[derive(Drop)]
pub struct TypedName {
    /// Its namespace.
    pub space: Namespace,
    /// The name with its qualifier, as it is written.
    pub text: String,
    /// The text of its scheme. A type has none, nor has a variable or constructor that is in no interface.
    pub scheme: Option<String>,
}

/// What names begin with, and the interface of their module.
#[derive(Clone, Copy)]
pub struct Wanted<'a> {
    /// What the names begin with.
    pub prefix: &'a [u8],
    /// The interface of the module, if it has one.
    pub own: Option<&'a Interface>,
}

/// Returns a name with its qualifier, as it is written.
fn written(alloc: Global, binding: &Binding<'_>) -> Result<String, AllocError>
    ensures { IfOk result (λ text. string_bytes text ≡ written_text binding.now.qualifier binding.now.text) }
{
    let text = binding.text();
    match binding.qualifier() {
        None => String::from_str(alloc, text),
        Some(qualifier) => format!(in alloc; "{qualifier}.{text}"),
    }
}

/// Returns the text of the scheme that one of the interfaces has for the entity of a binding under its name.
fn type_of(
    alloc: Global,
    interfaces: &[&Interface],
    binding: &Binding<'_>,
) -> Result<Option<String>, AllocError>
    ensures { IfOk result (λ found. HasType (map (λ f. f.now) interfaces.now) binding.now (option_map string_bytes found)) }
{
    match scheme_among(interfaces, binding) {
        None => Ok(None),
        Some(scheme) => Ok(Some(scheme_text(alloc, scheme)?)),
    }
}

/// Returns whether a text begins with a prefix.
fn begins(text: &str, prefix: &[u8]) -> bool
    ensures { result ≡ starts_with (λ a b. a == b) text.now prefix.now }
{
    text.as_bytes().starts_with(prefix)
}

/// Adds a name with its type, if it begins with a prefix.
fn add_typed(
    alloc: Global,
    names: &mut Vec<TypedName>,
    interfaces: &[&Interface],
    binding: &Binding<'_>,
    prefix: &[u8],
) -> Result<(), AllocError>
    ensures { OnOk result ((done : List Pair) → AllZip (IsTypedName (map (λ f. f.now) interfaces.now)) (filter (begins prefix.now) done) names.old.items
        → AllZip (IsTypedName (map (λ f. f.now) interfaces.now)) (filter (begins prefix.now) (done ++ binding.now ∷ [])) names.new.items) }
{
    let text = written(alloc, binding)?;
    if !begins(text.as_str(), prefix) {
        return Ok(());
    }
    let scheme = type_of(alloc, interfaces, binding)?;
    let space = binding.space();
    names.push(TypedName {
        space,
        text,
        scheme,
    })?;
    Ok(())
}

/// Returns those of these names that begin with a prefix, each with its type.
fn typed_among(
    alloc: Global,
    bindings: &[Binding<'_>],
    interfaces: &[&Interface],
    prefix: &[u8],
) -> Result<Vec<TypedName>, AllocError>
    ensures { IfOk result (λ names. AllZip (IsTypedName (map (λ f. f.now) interfaces.now)) (filter (begins prefix.now) bindings.now) names.items) }
{
    let mut names = Vec::new(alloc);
    'bindings: for binding in bindings {
        add_typed(alloc, &mut names, interfaces, binding, prefix)?;
    }
    Ok(names)
}

/// Returns the interfaces in which types are looked up: Prelude's, those of the imports, and that of the module, if it has one.
fn searched<'a>(
    alloc: Global,
    prelude: &'a Interface,
    imports: &'a [Arc<Interface>],
    own: Option<&'a Interface>,
) -> Result<Vec<&'a Interface>, AllocError>
    ensures { IfOk result (λ all. map (λ f. f.now) all.items ≡ (prelude.now ∷ map arc_value imports.now) ++ option_to_list (option_map (λ f. f.now) own.entry)) }
{
    let mut interfaces = interfaces_of(alloc, prelude, imports)?;
    if let Some(interface) = own {
        interfaces.push(interface)?;
    }
    Ok(interfaces)
}

/// Returns the names that mean one entity in the scope of a module and begin with a prefix, each once, with their types. `imports` has the interfaces of
/// the imported modules except Prelude, in any order. The module may have faults.
///
/// # Errors
///
/// If memory runs out.
pub fn typed_names(
    alloc: Global,
    program: &Module,
    prelude: &Interface,
    imports: &[Arc<Interface>],
    wanted: &Wanted<'_>,
) -> Result<Vec<TypedName>, AllocError>
    requires { AreNamedApart (prelude.now ∷ map arc_value imports.now) }
    ensures { IfOk result (λ names. AreTypedNames program.now (prelude.now ∷ map arc_value imports.now) (option_map (λ f. f.now) wanted.now.own) wanted.now.prefix.now names.items) }
{
    let bindings = meant_names(alloc, program, prelude, imports)?;
    let interfaces = searched(alloc, prelude, imports, wanted.own)?;
    let names = typed_among(
        alloc,
        bindings.as_slice(),
        interfaces.as_slice(),
        wanted.prefix,
    )?;
    Ok(names)
}
