//! Patterns (Haskell 98 Report, section 3.17).
ghost use Rattle.std.specs.Prelude.{◌≡◌, [], IfOk, OnOk, map};
ghost use Rattle.hm_syntax.specs.Lists.{patterns};
ghost use Rattle.hm_names.specs.Variables.{pattern_variables, patterns_variables};
ghost use Rattle.hm_names.specs.Resolved.{pattern_with, bare};
ghost use Rattle.hm_names.specs.Found.{noting, resolver_of, binder_of, pattern_faults, patterns_faults, head_faults, alone, non_linear};

use crate::copies::{bound_name, copy_literal, owned_names};
use crate::resolving::Resolving;
use hm_names::{Kind, LentNames, add_pattern, add_patterns};
use hm_syntax::{Name, Pat, PatKind};
use hm_types::Text;
use std::alloc::{AllocError, Global};

impl Resolving<'_> {
    /// Returns a pattern with its names resolved.
    #[cycle(patterns)]
    #[tactic(auto, using(hm_names::proofs::Rows::patterns_map, hm_names::proofs::Rows::pattern_falls))]
    pub(crate) fn pat(
        &mut self,
        alloc: Global,
        home: &Option<Text>,
        pat: &Pat,
    ) -> Result<Pat, AllocError>
        ensures tree { IfOk result (λ p. p ≡ pattern_with (resolver_of self.old.known) (binder_of home.now) pat.now) }
        ensures state { OnOk result (self.new ≡ noting (pattern_faults self.old.known pat.now) self.old) }
    {
        match &pat.kind {
            PatKind::Var(name) => Ok(Pat {
                kind: PatKind::Var(bound_name(alloc, home, name)?),
            }),
            PatKind::Bound(name, inner) => {
                let name = bound_name(alloc, home, name)?;
                let inner = Box::new(alloc, self.pat(alloc, home, inner)?)?;
                Ok(Pat {
                    kind: PatKind::Bound(name, inner),
                })
            }
            PatKind::Con(name, args) => {
                let name = self.pattern_name(alloc, name, args)?;
                let args = self.pat_row(alloc, home, args)?;
                Ok(Pat {
                    kind: PatKind::Con(name, args),
                })
            }
            PatKind::Literal(literal) => Ok(Pat {
                kind: PatKind::Literal(copy_literal(literal)?),
            }),
            PatKind::Wild => Ok(Pat {
                kind: PatKind::Wild,
            }),
            PatKind::Tuple(parts) => {
                let parts = self.pat_row(alloc, home, parts)?;
                Ok(Pat {
                    kind: PatKind::Tuple(parts),
                })
            }
            PatKind::List(elements) => {
                let elements = self.pat_row(alloc, home, elements)?;
                Ok(Pat {
                    kind: PatKind::List(elements),
                })
            }
            PatKind::Lazy(inner) => {
                let inner = Box::new(alloc, self.pat(alloc, home, inner)?)?;
                Ok(Pat {
                    kind: PatKind::Lazy(inner),
                })
            }
        }
    }

    /// Returns a row of patterns with their names resolved.
    #[cycle(patterns)]
    #[tactic(auto, using(hm_names::proofs::Rows::pattern_falls))]
    pub(crate) fn pat_row(
        &mut self,
        alloc: Global,
        home: &Option<Text>,
        row: &[Pat],
    ) -> Result<Vec<Pat>, AllocError>
        ensures trees { IfOk result (λ ps. ps.items ≡ map (pattern_with (resolver_of self.old.known) (binder_of home.now)) row.now) }
        ensures state { OnOk result (self.new ≡ noting (patterns_faults self.old.known (patterns row.now)) self.old) }
    {
        let mut resolved = Vec::with_capacity(alloc, row.len())?;
        'row: for pat in row {
            resolved.push(self.pat(alloc, home, pat)?)?;
        }
        Ok(resolved)
    }

    /// Returns the patterns of one clause, lambda or alternative with their names resolved, and their variables.
    #[tactic(auto, using(hm_names::proofs::Rows::noting_more))]
    pub(crate) fn head(
        &mut self,
        alloc: Global,
        pats: &[Pat],
    ) -> Result<(Vec<Pat>, Vec<Name>), AllocError>
        ensures trees { IfOk result (λ r. r.0.items ≡ map (pattern_with (resolver_of self.old.known) bare) pats.now) }
        ensures names { IfOk result (λ r. r.1.items ≡ patterns_variables (patterns pats.now)) }
        ensures state { OnOk result (self.new ≡ noting (head_faults self.old.known (patterns pats.now)) self.old) }
    {
        let mut names = LentNames::new(alloc);
        add_patterns(&mut names, pats)?;
        self.repeated(alloc, Kind::NonLinear, &names)?;
        let home = None;
        let resolved = self.pat_row(alloc, &home, pats)?;
        Ok((resolved, owned_names(alloc, &names)?))
    }

    /// Returns a single pattern with its names resolved, and its variables.
    #[tactic(auto, using(hm_names::proofs::Rows::noting_more))]
    pub(crate) fn lone(
        &mut self,
        alloc: Global,
        home: &Option<Text>,
        pat: &Pat,
    ) -> Result<(Pat, Vec<Name>), AllocError>
        ensures tree { IfOk result (λ r. r.0 ≡ pattern_with (resolver_of self.old.known) (binder_of home.now) pat.now) }
        ensures names { IfOk result (λ r. r.1.items ≡ patterns_variables (alone pat.now)) }
        ensures state { OnOk result (self.new ≡ noting (head_faults self.old.known (alone pat.now)) self.old) }
    {
        let mut names = LentNames::new(alloc);
        add_pattern(&mut names, pat)?;
        self.repeated(alloc, Kind::NonLinear, &names)?;
        let resolved = self.pat(alloc, home, pat)?;
        Ok((resolved, owned_names(alloc, &names)?))
    }
}
