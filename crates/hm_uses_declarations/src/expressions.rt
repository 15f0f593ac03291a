//! The uses of names in expressions and declarations.
ghost use Rattle.std.specs.Prelude.{◌≡◌, ◌++◌, OnOk};
ghost use Rattle.hm_syntax.specs.Lists.{patterns, expressions, alternatives, declarations};
ghost use Rattle.hm_syntax.specs.Trees.{application, lambda, let_expression, if_expression, case_expression, typed_expression, clause, pattern_binding};
ghost use Rattle.hm_uses.specs.Found.{pattern_uses, expression_uses, expressions_uses, alternatives_uses, right_side_uses, declaration_uses, declarations_uses};
ghost use Rattle.hm_uses_declarations.specs.Walking.{all_of, home_of, adding, alternative_uses, guard_uses, part_uses, parts_uses};

use crate::walking::Walk;
use hm_syntax::{Alt, Decl, DeclKind, Expr, ExprKind, Name, Pat, Rhs, TypeExpr};
use std::alloc::{AllocError, Global};

impl<'s, 'a> Walk<'s, 'a> {
    /// Adds the names of an expression.
    #[cycle(exprs)]
    fn expr(&mut self, alloc: Global, expr: &'a Expr) -> Result<(), AllocError>
        ensures { OnOk result (self.new ≡ adding (expression_uses self.old.known (all_of self.old.groups) expr.now) self.old) }
    {
        match &expr.kind {
            ExprKind::Var(name) => Ok(self.variable(name)?),
            ExprKind::Con(name) => Ok(self.constructor(name)?),
            ExprKind::Literal(_) => Ok(()),
            ExprKind::Apply(function, argument) => Ok(self.apply(alloc, function, argument)?),
            ExprKind::Lambda(pats, body) => Ok(self.lambda(alloc, pats, body)?),
            ExprKind::Let(local, body) => Ok(self.let_in(alloc, local, body)?),
            ExprKind::If(test, consequence, alternative) => {
                Ok(self.if_then_else(alloc, test, consequence, alternative)?)
            }
            ExprKind::Case(subject, alts) => Ok(self.case_of(alloc, subject, alts)?),
            ExprKind::Tuple(parts) => Ok(self.expr_row(alloc, parts)?),
            ExprKind::List(elements) => Ok(self.expr_row(alloc, elements)?),
            ExprKind::Typed(inner, ty) => Ok(self.typed(alloc, inner, ty)?),
        }
    }

    /// Adds the names of a row of expressions.
    #[cycle(exprs)]
    #[tactic(auto, using(crate::proofs::Steps::adding_more, hm_names::proofs::Rows::expression_falls))]
    #[inline(never)]
    fn expr_row(&mut self, alloc: Global, row: &'a [Expr]) -> Result<(), AllocError>
        ensures { OnOk result (self.new ≡ adding (expressions_uses self.old.known (all_of self.old.groups) (expressions row.now)) self.old) }
    {
        'row: for expr in row {
            self.expr(alloc, expr)?;
        }
        Ok(())
    }

    #[cycle(exprs)]
    #[tactic(auto, using(crate::proofs::Steps::adding_more))]
    fn apply(
        &mut self,
        alloc: Global,
        function: &'a Expr,
        argument: &'a Expr,
    ) -> Result<(), AllocError>
        ensures { OnOk result (self.new ≡ adding (expression_uses self.old.known (all_of self.old.groups) (application function.now argument.now)) self.old) }
    {
        self.expr(alloc, function)?;
        self.expr(alloc, argument)?;
        Ok(())
    }

    #[cycle(exprs)]
    #[tactic(auto, using(crate::proofs::Steps::adding_more))]
    #[inline(never)]
    fn lambda(&mut self, alloc: Global, pats: &'a [Pat], body: &'a Expr) -> Result<(), AllocError>
        ensures { OnOk result (self.new ≡ adding (expression_uses self.old.known (all_of self.old.groups) (lambda (patterns pats.now) body.now)) self.old) }
    {
        self.enter_patterns(alloc, pats)?;
        self.pat_row(pats)?;
        self.expr(alloc, body)?;
        self.leave();
        Ok(())
    }

    #[cycle(exprs)]
    #[tactic(auto, using(crate::proofs::Steps::adding_more))]
    #[inline(never)]
    fn let_in(&mut self, alloc: Global, local: &'a [Decl], body: &'a Expr) -> Result<(), AllocError>
        ensures { OnOk result (self.new ≡ adding (expression_uses self.old.known (all_of self.old.groups)
            (let_expression (declarations local.now) body.now)) self.old) }
    {
        self.enter_list(alloc, local)?;
        self.decl_row(alloc, local)?;
        self.expr(alloc, body)?;
        self.leave();
        Ok(())
    }

    #[cycle(exprs)]
    #[tactic(auto, using(crate::proofs::Steps::adding_more))]
    #[inline(never)]
    fn if_then_else(
        &mut self,
        alloc: Global,
        test: &'a Expr,
        consequence: &'a Expr,
        alternative: &'a Expr,
    ) -> Result<(), AllocError>
        ensures { OnOk result (self.new ≡ adding (expression_uses self.old.known (all_of self.old.groups)
            (if_expression test.now consequence.now alternative.now)) self.old) }
    {
        self.expr(alloc, test)?;
        self.expr(alloc, consequence)?;
        self.expr(alloc, alternative)?;
        Ok(())
    }

    #[cycle(exprs)]
    #[tactic(auto, using(crate::proofs::Steps::adding_more))]
    #[inline(never)]
    fn case_of(
        &mut self,
        alloc: Global,
        subject: &'a Expr,
        alts: &'a [Alt],
    ) -> Result<(), AllocError>
        ensures { OnOk result (self.new ≡ adding (expression_uses self.old.known (all_of self.old.groups)
            (case_expression subject.now (alternatives alts.now))) self.old) }
    {
        self.expr(alloc, subject)?;
        self.alt_row(alloc, alts)?;
        Ok(())
    }

    #[cycle(exprs)]
    #[tactic(auto, using(crate::proofs::Steps::adding_more))]
    #[inline(never)]
    fn typed(&mut self, alloc: Global, inner: &'a Expr, ty: &'a TypeExpr) -> Result<(), AllocError>
        ensures { OnOk result (self.new ≡ adding (expression_uses self.old.known (all_of self.old.groups) (typed_expression inner.now ty.now)) self.old) }
    {
        self.expr(alloc, inner)?;
        self.signature_type(alloc, ty)?;
        Ok(())
    }

    /// Adds the names of an alternative of a `case`.
    #[cycle(exprs)]
    #[tactic(auto, using(crate::proofs::Steps::adding_more), unfolding(crate::specs::Walking::alternative_uses))]
    fn alt(&mut self, alloc: Global, alt: &'a Alt) -> Result<(), AllocError>
        ensures { OnOk result (self.new ≡ adding (alternative_uses self.old.known (all_of self.old.groups) alt.now) self.old) }
    {
        self.enter_pattern(alloc, &alt.pat)?;
        self.pat(&alt.pat)?;
        self.rhs(alloc, &alt.rhs)?;
        self.leave();
        Ok(())
    }

    /// Adds the names of a row of alternatives.
    #[cycle(exprs)]
    #[tactic(auto, using(crate::proofs::Steps::adding_more, hm_names::proofs::Rows::alternative_falls))]
    fn alt_row(&mut self, alloc: Global, row: &'a [Alt]) -> Result<(), AllocError>
        ensures { OnOk result (self.new ≡ adding (alternatives_uses self.old.known (all_of self.old.groups) (alternatives row.now)) self.old) }
    {
        'row: for alt in row {
            self.alt(alloc, alt)?;
        }
        Ok(())
    }

    /// Adds the names of a right side. Its local declarations scope over all of it.
    #[cycle(exprs)]
    #[tactic(auto, using(crate::proofs::Steps::adding_more, crate::proofs::Steps::parts_are))]
    fn rhs(&mut self, alloc: Global, rhs: &'a Rhs) -> Result<(), AllocError>
        ensures { OnOk result (self.new ≡ adding (right_side_uses self.old.known (all_of self.old.groups) rhs.now) self.old) }
    {
        self.enter_list(alloc, &rhs.local)?;
        self.part_row(alloc, &rhs.parts)?;
        self.decl_row(alloc, &rhs.local)?;
        self.leave();
        Ok(())
    }

    /// Adds the names of the expressions of a right side, each with its guard.
    #[cycle(exprs)]
    #[tactic(auto, using(crate::proofs::Steps::adding_more, hm_names::proofs::Rows::part_falls))]
    fn part_row(&mut self, alloc: Global, row: &'a [(Option<Expr>, Expr)]) -> Result<(), AllocError>
        ensures { OnOk result (self.new ≡ adding (parts_uses self.old.known (all_of self.old.groups) row.now) self.old) }
    {
        'row: for part in row {
            self.part(alloc, part)?;
        }
        Ok(())
    }

    #[cycle(exprs)]
    #[tactic(auto, using(crate::proofs::Steps::adding_more))]
    fn part(&mut self, alloc: Global, part: &'a (Option<Expr>, Expr)) -> Result<(), AllocError>
        ensures { OnOk result (self.new ≡ adding (part_uses self.old.known (all_of self.old.groups) part.now) self.old) }
    {
        self.guard(alloc, &part.0)?;
        self.expr(alloc, &part.1)?;
        Ok(())
    }

    #[cycle(exprs)]
    fn guard(&mut self, alloc: Global, guard: &'a Option<Expr>) -> Result<(), AllocError>
        ensures { OnOk result (self.new ≡ adding (guard_uses self.old.known (all_of self.old.groups) guard.now) self.old) }
    {
        match guard {
            None => Ok(()),
            Some(expr) => Ok(self.expr(alloc, expr)?),
        }
    }

    /// Adds the names of a declaration, whose list is the innermost one.
    #[cycle(exprs)]
    fn decl(&mut self, alloc: Global, decl: &'a Decl) -> Result<(), AllocError>
        ensures { OnOk result (self.new ≡ adding (declaration_uses self.old.known (all_of self.old.groups) (home_of self.old.groups) decl.now) self.old) }
    {
        match &decl.kind {
            DeclKind::DataType {
                name,
                params,
                constrs,
            } => Ok(self.data_type(alloc, name, params, constrs)?),
            DeclKind::Newtype {
                name,
                params,
                constr,
            } => Ok(self.newtype(alloc, name, params, constr)?),
            DeclKind::Synonym { name, params, ty } => Ok(self.synonym(alloc, name, params, ty)?),
            DeclKind::Signature { names, ty } => Ok(self.signature(alloc, names, ty)?),
            DeclKind::Clause { name, pats, rhs } => Ok(self.clause(alloc, name, pats, rhs)?),
            DeclKind::Pattern { pat, rhs, .. } => Ok(self.binding(alloc, pat, rhs)?),
        }
    }

    /// Adds the names of a clause of a variable's binding.
    #[cycle(exprs)]
    #[tactic(auto, using(crate::proofs::Steps::adding_more))]
    #[inline(never)]
    fn clause(
        &mut self,
        alloc: Global,
        name: &'a Name,
        pats: &'a [Pat],
        rhs: &'a Rhs,
    ) -> Result<(), AllocError>
        ensures { OnOk result (self.new ≡ adding (declaration_uses self.old.known (all_of self.old.groups) (home_of self.old.groups)
            (clause name.now (patterns pats.now) rhs.now)) self.old) }
    {
        self.binder(name, true)?;
        self.enter_patterns(alloc, pats)?;
        self.pat_row(pats)?;
        self.rhs(alloc, rhs)?;
        self.leave();
        Ok(())
    }

    /// Adds the names of a pattern binding.
    #[cycle(exprs)]
    #[tactic(auto, using(crate::proofs::Steps::adding_more))]
    #[inline(never)]
    fn binding(&mut self, alloc: Global, pat: &'a Pat, rhs: &'a Rhs) -> Result<(), AllocError>
        ensures { OnOk result (self.new ≡ adding (pattern_uses self.old.known (home_of self.old.groups) pat.now
            ++ right_side_uses self.old.known (all_of self.old.groups) rhs.now) self.old) }
    {
        self.pat(pat)?;
        self.rhs(alloc, rhs)?;
        Ok(())
    }

    /// Adds the names of declarations, whose list is the innermost one.
    #[cycle(exprs)]
    #[tactic(auto, using(crate::proofs::Steps::adding_more, hm_names::proofs::Rows::declaration_falls))]
    pub(crate) fn decl_row(&mut self, alloc: Global, row: &'a [Decl]) -> Result<(), AllocError>
        ensures { OnOk result (self.new ≡ adding (declarations_uses self.old.known (all_of self.old.groups) (home_of self.old.groups) (declarations row.now))
            self.old) }
    {
        'row: for decl in row {
            self.decl(alloc, decl)?;
        }
        Ok(())
    }
}
