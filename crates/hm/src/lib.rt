//! A type checker for modules of Haskell 98: all that a program needs to embed it, in one crate.
//!
//! This crate defines nothing. Each module below re-exports one stage, in the order in which a source goes through them:
//!
//! | Module | From | To |
//! |---|---|---|
//! | `lex` | the bytes of a source | tokens |
//! | `parse` | tokens | trees of modules |
//! | `graph` | headers of modules | an import plan |
//! | `types` | | types, schemes and interfaces, and their texts |
//! | `scope` | a module and the interfaces of its imports | a core, in which each name is an entity |
//! | `unify` | equations between types | their most general unifier |
//! | `infer` | a core | principal schemes, or the bindings that have no type |
//! | `check` | a module and the interfaces of its imports | its outcome: an interface, or faults |
//! | `store` | outcomes from several workers | the state of a build, its journal and its audit |
//! | `build` | sources, or readers | a finished build, its report and its status |
//!
//! To check one module, call `lex::lex`, `parse::parse` and `check::check_module`. To check a set of modules by several threads, call
//! `build::build`. If the sources come from readers and the report goes to a writer, call `build::run`.
#![tactic(auto)]

// Why: docs/DECISIONS.md, "The door".
/// Tokens of a source.
pub mod lex {
    pub use hm_lex::{Kind, LexFault, Place, Token, lex};
}

/// Trees of modules.
pub mod parse {
    pub use hm_parse::{ParseFault, parse};
    pub use hm_syntax::{
        Alt, Constr, Decl, DeclKind, Export, Expr, ExprKind, Header, Import, ImportItem,
        ImportList, Literal, LiteralKind, Module, Name, Pat, PatKind, Rhs, Row, SubItems, TypeExpr,
        TypeKind,
    };
}

/// Directed graphs, and the import plan of a set of modules.
pub mod graph {
    pub use hm_graph::{Dependents, Digraph, Plan, PlanFault, import_plan};
}

/// Types, schemes and interfaces.
pub mod types {
    pub use hm_types::{
        ConstructorEntry, Entity, Entry, Head, Interface, Scheme, Synonym, SynonymEntry, Text, Ty,
        TypeEntry, Types, ValueEntry,
    };
    pub use hm_types_display::{interface_text, scheme_text};
    pub use hm_types_prelude::{SharedPrelude, prelude};
    pub use hm_types_subsumption::{canonical, instance_of};
}

/// Names: what is in scope, what each name means, what is exported.
pub mod scope {
    pub use hm_names::{
        Core, Exported, Fault, Kind, Namespace, Schemes, ScopeFault, TypeLimits, WIDE_LIMITS,
    };
    pub use hm_scope::{scope, scope_within};
    pub use hm_scope_interface::export;
    pub use hm_verdicts::kind_word;
}

/// Equations between types.
pub mod unify {
    pub use hm_unify::{Solver, UnifyFault};
}

/// Principal schemes.
pub mod infer {
    pub use hm_infer::{InferFault, infer, infer_within};
}

/// The verdict of one module.
pub mod check {
    pub use hm_check::{CheckFault, check_module, check_module_within};
    pub use hm_verdicts::{Outcome, Verdict};
}

/// The build object, alone and shared by threads.
pub mod store {
    pub use hm_store::{Act, Call, Claimed, Entry, Record, Refusal, Status, Store, Turn};
    pub use hm_store_published::{LookFault, Naming, Opened};
    pub use hm_store_shared::{Brands, Crew, Pass, Shared, SharedFault};
}

/// Builds by several threads, and runs from readers to a writer.
pub mod build {
    pub use hm_build::{
        BuildFault, Earlier, Finished, Gate, MessageOptions, Open, Options, Outputs, RunOptions,
        build, build_after, journal_text, report, run, run_with_messages,
    };
    pub use hm_build_place_runs::{AskedPlace, PlaceFormat, PlaceQuestion, run_place};
    pub use hm_messages::MessageFormat;
    pub use hm_run_io::{RunFault, Watched};
    pub use hm_run_sources::{
        Located, RefusedSet, SetFault, SetFaultKind, SourceModule, Status, Trees, plan_text,
        refusal_text, run_plan,
    };
}
