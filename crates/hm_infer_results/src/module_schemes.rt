//! The schemes of a module's own variables.

ghost use Rattle.std.specs.Prelude.{List, ◌+◌, ◌∷◌, IfOk, OnOk};
ghost use Rattle.hm_unify.specs.WellFormed.{IsWellFormed};
ghost use Rattle.hm_names.specs.SchemeTables.{scheme_of};
ghost use Rattle.hm_infer_context.specs.AssumedTypes.{type_in};
ghost use Rattle.hm_infer_context.specs.Environments.{AreAssumed, Assumed};
ghost use Rattle.hm_infer_context.specs.Kept.{assumed_of};
ghost use Rattle.hm_infer_expressions.specs.OwnSchemes.{HaveCanonical};

use hm_infer_context::{Binding, Environment, VariableKind, instantiate, own_text};
use hm_names::Schemes;
use hm_types_subsumption::canonical;
use std::alloc::{AllocError, Global};

/// Gives a variable of the module `home` the canonical form of its scheme in the environment.
fn put_scheme(
    alloc: Global,
    schemes: &mut Schemes,
    home: &str,
    binding: &Binding<'_>,
) -> Result<(), AllocError>
    requires { IsWellFormed (binding.now.quantified + 0) (type_in binding.now.body) }
    ensures { OnOk result ((es : List Assumed) → HaveCanonical home.now es (scheme_of schemes.old)
        → HaveCanonical home.now (assumed_of binding.now ∷ es) (scheme_of schemes.new)) }
{
    let Some(text) = own_text(binding.name, home) else {
        return Ok(());
    };
    let assumed = binding.body.as_type();
    let kind = VariableKind::Flexible;
    let body = instantiate(alloc, kind, binding.quantified, 0, assumed)?;
    schemes.put(text, canonical(alloc, &body)?)?;
    Ok(())
}

/// Returns the canonical schemes of the variables of the module `home`, by the environment.
pub fn own_schemes(
    alloc: Global,
    home: &str,
    environment: &Environment<'_>,
) -> Result<Schemes, AllocError>
    requires { AreAssumed 0 environment.now }
    ensures { IfOk result (λ schemes. HaveCanonical home.now environment.now (scheme_of schemes)) }
{
    let mut schemes = Schemes::new(alloc);
    'bindings: for binding in environment.as_slice() {
        put_scheme(alloc, &mut schemes, home, binding)?;
    }
    Ok(schemes)
}
