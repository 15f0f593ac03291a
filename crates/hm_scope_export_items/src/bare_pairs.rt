//! Sets of bare names with their entities.

ghost use Rattle.std.specs.Prelude.{◌≡◌, ◌↔◌, [], IfOk, OnOk, IsTrue, Contains, None};
ghost use Rattle.hm_names.specs.Bindings.{Pair, Adds};
ghost use Rattle.hm_scope_export_items.specs.BarePairs.{bare_of, pair_at};

use hm_names::Namespace;
use hm_scope_tables::Binding;
use indexmap::IndexSet;
use std::alloc::{AllocError, Global};
use std::marker::Model;

/// A bare name with an entity that it means, as a key.
#[derive(Clone, Copy, Hash, PartialEq, Eq)]
struct BareKey<'a> {
    space: Namespace,
    text: &'a str,
    module: &'a str,
    name: &'a str,
}

/// A set of bare names, each with an entity that it means.
#[derive(Drop)]
pub(crate) struct BarePairs<'a> {
    keys: IndexSet<BareKey<'a>>,
}

impl<'a> Model for BarePairs<'a> {
    ghost use Rattle.std.specs.Prelude.{List};
    ghost use Rattle.hm_names.specs.Bindings.{Pair};
    ghost use Rattle.hm_scope_export_items.specs.BarePairs.{pairs_at};

    ghost Value = { List Pair };

    ghost view = { λ s. pairs_at s.keys.keys };
}

/// Returns the key of a binding without its qualifier.
fn bare_key<'a>(binding: &Binding<'a>) -> BareKey<'a>
    ensures { pair_at result ≡ bare_of binding.now }
{
    BareKey {
        space: binding.space(),
        text: binding.text(),
        module: binding.entity().module(),
        name: binding.entity().name(),
    }
}

impl<'a> BarePairs<'a> {
    /// Returns an empty set.
    pub(crate) fn new(alloc: Global) -> BarePairs<'a>
        ensures { result ≡ [] }
    {
        BarePairs {
            keys: IndexSet::new(alloc),
        }
    }

    /// Returns whether the set has the bare name of a binding, with its entity.
    pub(crate) fn contains(&self, binding: &Binding<'a>) -> bool
        ensures { IsTrue result ↔ Contains self.now (bare_of binding.now) }
    {
        self.keys.contains(&bare_key(binding))
    }

    /// Adds the bare name of a binding, with its entity.
    pub(crate) fn insert(&mut self, binding: &Binding<'a>) -> Result<(), AllocError>
        ensures { OnOk result (Adds self.old self.new (λ p. bare_of binding.now ≡ p)) }
    {
        self.keys.insert(bare_key(binding))?;
        Ok(())
    }
}

/// Adds a binding if it has no qualifier.
fn add_bare<'a>(bare: &mut BarePairs<'a>, pair: &Binding<'a>) -> Result<(), AllocError>
    ensures { OnOk result (Adds bare.old bare.new (λ p. (pair.now.qualifier ≡ None) × (pair.now ≡ p))) }
{
    if pair.qualifier().is_some() {
        return Ok(());
    }
    bare.insert(pair)?;
    Ok(())
}

/// Returns the bindings without a qualifier.
pub(crate) fn bare_pairs<'a>(
    alloc: Global,
    pairs: &[Binding<'a>],
) -> Result<BarePairs<'a>, AllocError>
    ensures { IfOk result (λ bare. (p : Pair) → Contains bare p ↔ (Contains pairs.now p × (p.qualifier ≡ None))) }
{
    let mut bare = BarePairs::new(alloc);
    for pair in pairs {
        add_bare(&mut bare, pair)?;
    }
    Ok(bare)
}
