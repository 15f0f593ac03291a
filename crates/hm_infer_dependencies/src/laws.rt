//! Laws of declaration lists. Each law is a function with an empty body, and its contract is the law.

ghost use Rattle.std.specs.Prelude.{◌↔◌, Bool};
ghost use Rattle.hm_infer_dependencies.specs.Checked.{GroupUnder, DeclarationsHave};
ghost use Rattle.hm_typing.specs.Assumptions.{Assumptions};
ghost use Rattle.hm_typing.specs.Schemes.{Monotype};
ghost use Rattle.hm_typing.specs.Names.{Identifier, IsOneOf};
ghost use Rattle.hm_typing.specs.Units.{IsUnsigned};
ghost use Rattle.hm_infer_dependencies.specs.Groups.{node_names};
ghost use Rattle.hm_typing.specs.Mentions.{Mentions, BindingsMention};
ghost use Rattle.hm_syntax.specs.Trees.{Expression, Declarations};
ghost use Rattle.hm_names.specs.Syntax.{Known, expression_of, bindings_of};
ghost use Rattle.hm_names_keys.specs.Variables.{Variable, identifier};
ghost use Rattle.hm_infer_dependencies.specs.References.{Refers, DeclarationsRefer};

/// The references that the walk finds are the mentions of the typing: for expressions, and for the right sides of a list.
#[tactic(auto, using(crate::proofs::Mentioned::refers_same, crate::proofs::Mentioned::declarations_same))]
pub fn references_are_mentions()
    ensures expressions { (k : Known) (y : Variable) (e : Expression) → Mentions (identifier y) (expression_of k e) ↔ Refers y e }
    ensures lists { (k : Known) (y : Variable) (all ds : Declarations) → BindingsMention (identifier y) (bindings_of k all ds) ↔ DeclarationsRefer y ds }
{}

/// The nodes of a list are its names without signatures.
pub fn nodes_are_names()
    ensures { (k : Known) (all ds : Declarations) (x : Identifier) → IsOneOf x (node_names k all ds) ↔ IsUnsigned x (bindings_of k all ds) }
{}

/// The constraints of a group on its bindings are those on its declarations, one by one.
pub fn groups_ask_of_declarations()
    ensures { (g : Identifier → Bool) (C : Assumptions) (τ : Identifier → Monotype) (k : Known) (all ds : Declarations)
        → GroupUnder g C τ (bindings_of k all ds) ↔ DeclarationsHave g C τ k all ds }
{}
