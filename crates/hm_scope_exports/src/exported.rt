//! The exports of a core, by name.

ghost use Rattle.std.specs.Prelude.{◌≡◌, ◌↔◌, ◌++◌, ◌∷◌, [], ℕ, List, map, IfOk, OnOk, Contains};
ghost use Rattle.hm_types.specs.declared.Entity.{Entity};
ghost use Rattle.hm_types.specs.Interfaces.{AreOrdered};
ghost use Rattle.hm_names.specs.Bindings.{Pair};
ghost use Rattle.hm_scope_exports.specs.ExportedRows.{AreOnePerName, HaveOneEntity, IsBound, exported_of};

use hm_names::{Exported, Namespace};
use hm_scope_export_items::copy_of;
use hm_scope_tables::{Binding, TextSet};
use hm_syntax::Row;
use hm_types::{Entity, Text};
use std::alloc::{AllocError, Global};

/// Adds a binding if it is in the namespace and has a new name.
fn add_once<'a>(
    names: &mut TextSet<'a>,
    out: &mut Vec<Binding<'a>>,
    space: Namespace,
    binding: &Binding<'a>,
) -> Result<(), AllocError>
    ensures { OnOk result ((seen : List Pair) → AreOnePerName space seen names.old out.old.items
        → AreOnePerName space (seen ++ binding.now ∷ []) names.new out.new.items) }
{
    if binding.space() != space {
        return Ok(());
    }
    if !names.insert(binding.text())? {
        return Ok(());
    }
    out.push(copy_of(binding))?;
    Ok(())
}

/// Returns the bindings of a namespace, one for each name.
fn of_namespace<'a>(
    alloc: Global,
    given: &[Binding<'a>],
    space: Namespace,
) -> Result<Vec<Binding<'a>>, AllocError>
    ensures { IfOk result (λ out. AreOnePerName space given.now (map (λ p. p.text) out.items) out.items) }
{
    let mut names = TextSet::new(alloc);
    let mut out = Vec::new(alloc);
    for binding in given {
        add_once(&mut names, &mut out, space, binding)?;
    }
    Ok(out)
}

/// Returns the text of a binding. Usually this is the text of the entity's name, which is then shared.
fn text_of(alloc: Global, binding: &Binding<'_>) -> Result<Text, AllocError>
    ensures { IfOk result (λ text. text ≡ binding.now.text) }
{
    let entity = binding.entity();
    if binding.text() == entity.name() {
        return Ok(entity.name_text().copy()?);
    }
    Ok(Text::from_str(alloc, binding.text())?)
}

/// Returns the entity of a binding, with its exported name.
fn exported(alloc: Global, binding: &Binding<'_>) -> Result<Exported, AllocError>
    ensures { IfOk result (λ e. e ≡ exported_of binding.now) }
{
    let name = text_of(alloc, binding)?;
    let entity = binding.entity();
    Ok(Exported {
        name,
        entity: Entity {
            module: entity.module_text().copy()?,
            name: entity.name_text().copy()?,
        },
    })
}

/// Returns the exports of a namespace, ordered by name, each name once.
pub fn exported_in(
    alloc: Global,
    given: &[Binding<'_>],
    space: Namespace,
) -> Result<Row<Exported>, AllocError>
    requires { HaveOneEntity given.now }
    ensures exact { IfOk result (λ row. (x : List ℕ) (e : Entity) → Contains row (record { name = x; entity = e }) ↔ IsBound given.now space x e) }
    ensures ordered { IfOk result (λ row. AreOrdered (map (λ r. r.name) row)) }
{
    let mut bindings = of_namespace(alloc, given, space)?;
    bindings.sort_by(|a, b| a.text().cmp(b.text()))?;
    let mut items = Vec::new(alloc);
    for binding in &bindings {
        items.push(exported(alloc, binding)?)?;
    }
    Ok(Row { items })
}
