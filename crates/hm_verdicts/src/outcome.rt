//! Outcomes of checked modules.

ghost use Rattle.std.specs.Prelude.{◌≡◌, ◌∷◌, ◌↔◌, IsTrue, map};
ghost use Rattle.std.specs.Arc.{arc_value};
ghost use Rattle.hm_types.specs.StandardPrelude.{prelude_interface};
ghost use Rattle.hm_verdicts.specs.ModuleVerdicts.{IsVerdict};
ghost use Rattle.hm_verdicts.specs.Outcomes.{IsGood, verdict_of};

use hm_names::Fault;
use hm_syntax::{Module, Row};
use hm_types::Interface;
use std::marker::Model;
use std::sync::Arc;

/// The verdict of a module for the interfaces of its imports.
#[derive(Drop)]
pub enum Verdict {
    /// It is well-formed and typed. Has its interface.
    Good(Arc<Interface>),
    /// It has faults, at least one: all faults of the first phase that has any, or one for each unit without a type.
    Faulty(Row<Fault>),
}

// Why: docs/DECISIONS.md, "Outcomes".
/// A module, the interfaces of its imports, and its verdict for these and Prelude's interface.
pub struct Outcome {
    module: Arc<Module>,
    imports: Row<Arc<Interface>>,
    verdict: Verdict,
}

impl Drop for Outcome {
    fn drop(self) {
        let Outcome {
            module: _module,
            imports: _imports,
            verdict: _verdict,
        } = self;
    }
}

impl Model for Outcome {
    ghost use Rattle.std.specs.Prelude.{◌∷◌, map};
    ghost use Rattle.std.specs.Coded.{codes};
    ghost use Rattle.hm_syntax.specs.Codes.{coded_declaration};
    ghost use Rattle.hm_types.specs.Interfaces.{coded_exports};
    ghost use Rattle.std.specs.Arc.{arc_value};
    ghost use Rattle.hm_types.specs.StandardPrelude.{prelude_interface};
    ghost use Rattle.hm_verdicts.specs.ModuleVerdicts.{IsVerdict};
    ghost use Rattle.hm_verdicts.specs.Outcomes.{Checked, verdict_of};

    ghost Value = { Checked };

    ghost coded = { Prim.hlevel (codes, coded_declaration, coded_exports) };

    ghost view = { λ o. record { «module» = arc_value o.«module»; imports = map arc_value o.imports; verdict = verdict_of o.verdict } };

    ghost invariant = { λ o. IsVerdict (arc_value o.«module») (prelude_interface ∷ map arc_value o.imports) (verdict_of o.verdict) };
}

impl Outcome {
    /// Returns the outcome of a module with this verdict.
    pub fn new(module: Arc<Module>, imports: Row<Arc<Interface>>, verdict: Verdict) -> Outcome
        requires { IsVerdict (arc_value «module») (prelude_interface ∷ map arc_value imports) (verdict_of verdict) }
        ensures { result ≡ record { «module» = arc_value «module»; imports = map arc_value imports; verdict = verdict_of verdict } }
    {
        Outcome {
            module,
            imports,
            verdict,
        }
    }

    /// Returns the module that was checked.
    pub fn module(&self) -> &Arc<Module>
        ensures { arc_value result.now ≡ self.now.«module» }
    {
        &self.module
    }

    /// Returns the interfaces of its imports without Prelude's, in order of first import.
    pub fn imports(&self) -> &[Arc<Interface>]
        ensures { map arc_value result.now ≡ self.now.imports }
    {
        self.imports.as_slice()
    }

    /// Returns the verdict.
    pub fn verdict(&self) -> &Verdict
        ensures value { verdict_of result.now ≡ self.now.verdict }
        ensures right { IsVerdict self.now.«module» (prelude_interface ∷ self.now.imports) self.now.verdict }
    {
        &self.verdict
    }

    /// Returns whether the module is good.
    pub fn is_good(&self) -> bool
        ensures { IsTrue result ↔ IsGood self.now.verdict }
    {
        match &self.verdict {
            Verdict::Good(_) => true,
            Verdict::Faulty(_) => false,
        }
    }
}
