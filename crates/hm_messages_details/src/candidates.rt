//! The entities of an ambiguous name, with the names that mean each of them alone.
ghost use Rattle.std.specs.Prelude.{◌≡◌, List, All, Contains, IfSome, false, true};
ghost use Rattle.hm_types.specs.Interfaces.{Exports as Interface};
ghost use Rattle.hm_syntax.specs.declared.ast.Import.{Import as ImportTree};
ghost use Rattle.hm_names.specs.Bindings.{IsScopeOf};
ghost use Rattle.hm_names.specs.Scope.{known_as, prelude_name};
ghost use Rattle.hm_messages_details.specs.Candidates.{HasLine, IsAlone, IsByPrelude, IsCandidate, IsInLine, IsOfImports, IsOther, IsUnder, MeansOnly};
ghost use Rattle.hm_messages_details.specs.Details.{candidate_of, entity_of as entity_at};

use crate::detail::{Candidate, Origin};
use hm_names::Namespace;
use hm_scope_tables::{Binding, EntityRef};
use hm_syntax::{Import, Module};

/// Returns where an entity is defined.
fn origin_of<'a>(entity: &EntityRef<'a>) -> Origin<'a>
    ensures { entity_at result ≡ entity.now }
{
    Origin {
        module: entity.module(),
        name: entity.name(),
    }
}

/// Returns whether a pair has this qualifier and an entity's name, and another entity.
fn means_other(
    space: Namespace,
    qualifier: &str,
    entity: &EntityRef<'_>,
    pair: &Binding<'_>,
) -> bool
    ensures { result ≡ false → MeansOnly space qualifier.now entity.now pair.now }
{
    if pair.space() != space {
        return false;
    }
    let Some(own) = pair.qualifier() else {
        return false;
    };
    if own != qualifier {
        return false;
    }
    if pair.text() != entity.name() {
        return false;
    }
    !pair.entity().is_same(entity)
}

/// Returns whether each pair with this qualifier and an entity's name has this entity.
fn means_alone(
    space: Namespace,
    qualifier: &str,
    entity: &EntityRef<'_>,
    pairs: &[Binding<'_>],
) -> bool
    ensures { result ≡ true → All (MeansOnly space qualifier.now entity.now) pairs.now }
{
    'pairs: for pair in pairs {
        if means_other(space, qualifier, entity, pair) {
            return false;
        }
    }
    true
}

/// Returns the qualifier of a pair, if the pair has an entity under the entity's name.
fn qualifier_in<'a>(space: Namespace, entity: &EntityRef<'_>, pair: &Binding<'a>) -> Option<&'a str>
    ensures { IfSome result (λ q. IsUnder space q.now entity.now pair.now) }
{
    let qualifier = pair.qualifier()?;
    if pair.space() != space {
        return None;
    }
    if pair.text() != entity.name() {
        return None;
    }
    if !pair.entity().is_same(entity) {
        return None;
    }
    Some(qualifier)
}

/// Returns the first qualifier under which an entity is in scope, if the entity's name means it alone with this one.
#[tactic(auto, using(crate::proofs::Meant::found_alone))]
fn qualifier_for<'a>(
    space: Namespace,
    entity: &EntityRef<'_>,
    pairs: &[Binding<'a>],
) -> Option<&'a str>
    ensures { IfSome result (λ q. IsAlone pairs.now space q.now entity.now) }
{
    for pair in pairs {
        match qualifier_in(space, entity, pair) {
            Some(qualifier) => {
                if means_alone(space, qualifier, entity, pairs) {
                    return Some(qualifier);
                }
                return None;
            }
            None => {}
        }
    }
    None
}

/// Returns the qualifier that an import gives.
fn qualifier_of(import: &Import) -> &str
    ensures { result.now ≡ known_as import.now }
{
    match &import.alias {
        None => import.name.as_str(),
        Some(alias) => alias.as_str(),
    }
}

/// Returns the line of the first import with this qualifier.
fn first_line(imports: &[Import], qualifier: &str) -> Option<u32>
    ensures { IfSome result (λ line. (i : ImportTree) × Contains imports.now i × (known_as i ≡ qualifier.now)) }
{
    for import in imports {
        if qualifier_of(import) == qualifier {
            return Some(import.name.place.line);
        }
    }
    None
}

/// Returns whether an import has another qualifier, or is in this line.
fn is_in_line(import: &Import, qualifier: &str, line: u32) -> bool
    ensures { result ≡ true → IsInLine qualifier.now line import.now }
{
    if qualifier_of(import) != qualifier {
        return true;
    }
    import.name.place.line == line
}

/// Returns whether each import with this qualifier is in this line.
fn is_only_line(imports: &[Import], qualifier: &str, line: u32) -> bool
    ensures { result ≡ true → All (IsInLine qualifier.now line) imports.now }
{
    'imports: for import in imports {
        if !is_in_line(import, qualifier, line) {
            return false;
        }
    }
    true
}

/// Returns the line of the imports with this qualifier, if there is one and no other line has one.
#[tactic(auto, using(crate::proofs::Meant::only_line))]
fn line_of(imports: &[Import], qualifier: &str) -> Option<u32>
    ensures { IfSome result (HasLine imports.now qualifier.now) }
{
    let line = first_line(imports, qualifier)?;
    if !is_only_line(imports, qualifier, line) {
        return None;
    }
    Some(line)
}

/// Returns whether an import names Prelude.
fn names_prelude(imports: &[Import]) -> bool
    ensures { result ≡ true → (i : ImportTree) × Contains imports.now i × (i.name.text ≡ prelude_name) }
{
    for import in imports {
        if import.name.as_str() == "Prelude" {
            return true;
        }
    }
    false
}

/// Returns whether what has this qualifier comes from written imports: it isn't the module's own name, nor that of an implicit Prelude.
fn is_of_imports(program: &Module, qualifier: &str) -> bool
    ensures { result ≡ true → IsOfImports program.now qualifier.now }
{
    if qualifier == program.header.name.as_str() {
        return false;
    }
    if qualifier != "Prelude" {
        return true;
    }
    names_prelude(program.header.imports.as_slice())
}

/// Returns the line of the imports that bring names with this qualifier, if there is one and no other line has one.
fn import_line(program: &Module, qualifier: &str) -> Option<u32>
    ensures { IfSome result (λ line. IsOfImports program.now qualifier.now × HasLine program.now.header.imports qualifier.now line) }
{
    if !is_of_imports(program, qualifier) {
        return None;
    }
    line_of(program.header.imports.as_slice(), qualifier)
}

/// Returns whether an import names another module than Prelude, and calls it otherwise.
fn is_other(import: &Import) -> bool
    ensures { result ≡ true → IsOther import.now }
{
    if import.name.as_str() == "Prelude" {
        return false;
    }
    qualifier_of(import) != "Prelude"
}

/// Returns whether each of these imports names another module than Prelude, and calls it otherwise.
fn are_others(imports: &[Import]) -> bool
    ensures { result ≡ true → All IsOther imports.now }
{
    'imports: for import in imports {
        if !is_other(import) {
            return false;
        }
    }
    true
}

/// Returns whether a pair is of another entity, is bare, or has Prelude's name for its qualifier.
fn is_by_prelude(space: Namespace, entity: &EntityRef<'_>, pair: &Binding<'_>) -> bool
    ensures { result ≡ true → IsByPrelude space entity.now pair.now }
{
    let Some(qualifier) = pair.qualifier() else {
        return true;
    };
    if qualifier == "Prelude" {
        return true;
    }
    if pair.space() != space {
        return true;
    }
    if pair.text() != entity.name() {
        return true;
    }
    !pair.entity().is_same(entity)
}

/// Returns whether each pair with an entity under its name is bare, or has Prelude's name for its qualifier.
fn are_by_prelude(space: Namespace, entity: &EntityRef<'_>, pairs: &[Binding<'_>]) -> bool
    ensures { result ≡ true → All (IsByPrelude space entity.now) pairs.now }
{
    'pairs: for pair in pairs {
        if !is_by_prelude(space, entity, pair) {
            return false;
        }
    }
    true
}

/// Returns whether an entity comes from the implicit import of Prelude alone.
fn is_preludes(
    program: &Module,
    pairs: &[Binding<'_>],
    space: Namespace,
    entity: &EntityRef<'_>,
) -> bool
    ensures { result ≡ true → (entity.now.«module» ≡ prelude_name) × All IsOther program.now.header.imports × All (IsByPrelude space entity.now) pairs.now }
{
    if entity.module() != "Prelude" {
        return false;
    }
    if !are_others(program.header.imports.as_slice()) {
        return false;
    }
    are_by_prelude(space, entity, pairs)
}

// Why: docs/DECISIONS.md, "Two things of one name".
/// Returns an entity that a name stands for, with a qualifier with which it is the only one, and the line of the import of that.
pub(crate) fn candidate<'a>(
    program: &Module,
    pairs: &[Binding<'a>],
    space: Namespace,
    entity: &EntityRef<'a>,
) -> Candidate<'a>
    ensures { (fs : List Interface) → IsScopeOf program.now fs pairs.now → IsCandidate program.now fs space entity.now (candidate_of result) }
{
    let origin = origin_of(entity);
    let is_implicit = is_preludes(program, pairs, space, entity);
    match qualifier_for(space, entity, pairs) {
        Some(qualifier) => Candidate {
            origin,
            qualifier: Some(qualifier),
            line: import_line(program, qualifier),
            is_implicit,
        },
        None => Candidate {
            origin,
            qualifier: None,
            line: None,
            is_implicit,
        },
    }
}
