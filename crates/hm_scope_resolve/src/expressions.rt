//! Expressions and declarations (Haskell 98 Report, sections 3 and 4.4).
ghost use Rattle.std.specs.Prelude.{◌≡◌, ◌++◌, IfOk, OnOk, map};
ghost use Rattle.hm_syntax.specs.Lists.{patterns, expressions, alternatives, declarations};
ghost use Rattle.hm_syntax.specs.Trees.{application, lambda, let_expression, if_expression, case_expression, typed_expression, clause, pattern_binding};
ghost use Rattle.hm_names.specs.Variables.{texts, bound_names};
ghost use Rattle.hm_names.specs.Resolved.{expression_with, right_side_with, declaration_with, bare};
ghost use Rattle.hm_names.specs.Found.{noting, entering, locals_of, resolver_of, binder_of, list_faults, expression_faults, expressions_faults, alternative_faults, alternatives_faults, right_side_faults, declaration_faults, declarations_faults, alternative_with, guard_with, part_with, guard_faults, part_faults, parts_faults};

use crate::copies::{bound_name, copy_literal, owned_names};
use crate::resolving::Resolving;
use crate::type_declarations::TypeHead;
use hm_lex::Place;
use hm_names::{LentNames, add_all_bound};
use hm_syntax::{Alt, Decl, DeclKind, Expr, ExprKind, Name, Pat, Rhs, TypeExpr};
use hm_types::Text;
use std::alloc::{AllocError, Global};

/// A clause of a variable's binding, borrowed from its declaration.
#[derive(Clone, Copy)]
struct FunctionClause<'t> {
    name: &'t Name,
    pats: &'t [Pat],
    rhs: &'t Rhs,
}

/// A pattern binding, borrowed from its declaration.
#[derive(Clone, Copy)]
struct PatternBinding<'t> {
    place: Place,
    pat: &'t Pat,
    rhs: &'t Rhs,
}

impl Resolving<'_> {
    /// Returns an expression with its names resolved.
    #[cycle(exprs)]
    #[tactic(auto, using(hm_names::proofs::Rows::expressions_map))]
    pub(crate) fn expr(&mut self, alloc: Global, expr: &Expr) -> Result<Expr, AllocError>
        ensures tree { IfOk result (λ e. e ≡ expression_with (resolver_of self.old.known) (locals_of self.old) expr.now) }
        ensures state { OnOk result (self.new ≡ noting (expression_faults self.old.known (locals_of self.old) expr.now) self.old) }
    {
        match &expr.kind {
            ExprKind::Var(name) => Ok(self.variable(alloc, name)?),
            ExprKind::Con(name) => Ok(self.constructor(alloc, name)?),
            ExprKind::Literal(literal) => Ok(Expr {
                kind: ExprKind::Literal(copy_literal(literal)?),
            }),
            ExprKind::Apply(function, argument) => Ok(self.apply(alloc, function, argument)?),
            ExprKind::Lambda(pats, body) => Ok(self.lambda(alloc, pats, body)?),
            ExprKind::Let(local, body) => Ok(self.let_in(alloc, local, body)?),
            ExprKind::If(test, consequence, alternative) => {
                Ok(self.if_then_else(alloc, test, consequence, alternative)?)
            }
            ExprKind::Case(subject, alts) => Ok(self.case_of(alloc, subject, alts)?),
            ExprKind::Tuple(parts) => {
                let parts = self.expr_row(alloc, parts)?;
                Ok(Expr {
                    kind: ExprKind::Tuple(parts),
                })
            }
            ExprKind::List(elements) => {
                let elements = self.expr_row(alloc, elements)?;
                Ok(Expr {
                    kind: ExprKind::List(elements),
                })
            }
            ExprKind::Typed(inner, ty) => Ok(self.typed(alloc, inner, ty)?),
        }
    }

    /// Returns a row of expressions with their names resolved.
    #[cycle(exprs)]
    #[tactic(auto, using(hm_names::proofs::Rows::expression_falls))]
    #[inline(never)]
    fn expr_row(&mut self, alloc: Global, row: &[Expr]) -> Result<Vec<Expr>, AllocError>
        ensures trees { IfOk result (λ es. es.items ≡ map (expression_with (resolver_of self.old.known) (locals_of self.old)) row.now) }
        ensures state { OnOk result (self.new ≡ noting (expressions_faults self.old.known (locals_of self.old) (expressions row.now)) self.old) }
    {
        let mut resolved = Vec::with_capacity(alloc, row.len())?;
        'row: for expr in row {
            resolved.push(self.expr(alloc, expr)?)?;
        }
        Ok(resolved)
    }

    #[cycle(exprs)]
    #[tactic(auto, using(hm_names::proofs::Rows::noting_more))]
    fn apply(&mut self, alloc: Global, function: &Expr, argument: &Expr) -> Result<Expr, AllocError>
        ensures tree { IfOk result (λ e. e ≡ expression_with (resolver_of self.old.known) (locals_of self.old) (application function.now argument.now)) }
        ensures state { OnOk result (self.new ≡ noting (expression_faults self.old.known (locals_of self.old) (application function.now argument.now))
            self.old) }
    {
        let function = Box::new(alloc, self.expr(alloc, function)?)?;
        let argument = Box::new(alloc, self.expr(alloc, argument)?)?;
        Ok(Expr {
            kind: ExprKind::Apply(function, argument),
        })
    }

    #[cycle(exprs)]
    #[tactic(auto, using(hm_names::proofs::Rows::noting_more, hm_names::proofs::Rows::patterns_map))]
    #[inline(never)]
    fn lambda(&mut self, alloc: Global, pats: &[Pat], body: &Expr) -> Result<Expr, AllocError>
        ensures tree { IfOk result (λ e. e ≡ expression_with (resolver_of self.old.known) (locals_of self.old) (lambda (patterns pats.now) body.now)) }
        ensures state { OnOk result (self.new ≡ noting (expression_faults self.old.known (locals_of self.old) (lambda (patterns pats.now) body.now)) self.old) }
    {
        let (pats, names) = self.head(alloc, pats)?;
        self.enter(names)?;
        let body = Box::new(alloc, self.expr(alloc, body)?)?;
        self.leave();
        Ok(Expr {
            kind: ExprKind::Lambda(pats, body),
        })
    }

    #[cycle(exprs)]
    #[tactic(auto, using(hm_names::proofs::Rows::noting_more, hm_names::proofs::Rows::declarations_map))]
    #[inline(never)]
    fn let_in(&mut self, alloc: Global, local: &[Decl], body: &Expr) -> Result<Expr, AllocError>
        ensures tree { IfOk result (λ e. e ≡ expression_with (resolver_of self.old.known) (locals_of self.old)
            (let_expression (declarations local.now) body.now)) }
        ensures state { OnOk result (self.new ≡ noting
            (expression_faults self.old.known (locals_of self.old) (let_expression (declarations local.now) body.now)) self.old) }
    {
        self.enter_list(alloc, local)?;
        let local = self.decl_list(alloc, local)?;
        let body = Box::new(alloc, self.expr(alloc, body)?)?;
        self.leave();
        Ok(Expr {
            kind: ExprKind::Let(local, body),
        })
    }

    #[cycle(exprs)]
    #[tactic(auto, using(hm_names::proofs::Rows::noting_more))]
    #[inline(never)]
    fn if_then_else(
        &mut self,
        alloc: Global,
        test: &Expr,
        consequence: &Expr,
        alternative: &Expr,
    ) -> Result<Expr, AllocError>
        ensures tree { IfOk result (λ e. e ≡ expression_with (resolver_of self.old.known) (locals_of self.old)
            (if_expression test.now consequence.now alternative.now)) }
        ensures state { OnOk result (self.new ≡ noting
            (expression_faults self.old.known (locals_of self.old) (if_expression test.now consequence.now alternative.now)) self.old) }
    {
        let test = Box::new(alloc, self.expr(alloc, test)?)?;
        let consequence = Box::new(alloc, self.expr(alloc, consequence)?)?;
        let alternative = Box::new(alloc, self.expr(alloc, alternative)?)?;
        Ok(Expr {
            kind: ExprKind::If(test, consequence, alternative),
        })
    }

    #[cycle(exprs)]
    #[tactic(auto, using(hm_names::proofs::Rows::noting_more, hm_names::proofs::Rows::alternatives_map))]
    #[inline(never)]
    fn case_of(&mut self, alloc: Global, subject: &Expr, alts: &[Alt]) -> Result<Expr, AllocError>
        ensures tree { IfOk result (λ e. e ≡ expression_with (resolver_of self.old.known) (locals_of self.old)
            (case_expression subject.now (alternatives alts.now))) }
        ensures state { OnOk result (self.new ≡ noting
            (expression_faults self.old.known (locals_of self.old) (case_expression subject.now (alternatives alts.now))) self.old) }
    {
        let subject = Box::new(alloc, self.expr(alloc, subject)?)?;
        let alts = self.alt_row(alloc, alts)?;
        Ok(Expr {
            kind: ExprKind::Case(subject, alts),
        })
    }

    #[cycle(exprs)]
    #[tactic(auto, using(hm_names::proofs::Rows::noting_more))]
    #[inline(never)]
    fn typed(&mut self, alloc: Global, inner: &Expr, ty: &TypeExpr) -> Result<Expr, AllocError>
        ensures tree { IfOk result (λ e. e ≡ expression_with (resolver_of self.old.known) (locals_of self.old) (typed_expression inner.now ty.now)) }
        ensures state { OnOk result (self.new ≡ noting (expression_faults self.old.known (locals_of self.old) (typed_expression inner.now ty.now)) self.old) }
    {
        let inner = Box::new(alloc, self.expr(alloc, inner)?)?;
        let ty = self.type_expr(alloc, ty)?;
        Ok(Expr {
            kind: ExprKind::Typed(inner, ty),
        })
    }

    /// Returns an alternative of a `case` with its names resolved.
    #[cycle(exprs)]
    #[tactic(auto, using(hm_names::proofs::Rows::noting_more), unfolding(hm_names::specs::Found::alternative_with))]
    fn alt(&mut self, alloc: Global, alt: &Alt) -> Result<Alt, AllocError>
        ensures tree { IfOk result (λ a. a ≡ alternative_with (resolver_of self.old.known) (locals_of self.old) alt.now) }
        ensures state { OnOk result (self.new ≡ noting (alternative_faults self.old.known (locals_of self.old) alt.now) self.old) }
    {
        let (pat, names) = self.lone(alloc, &None, &alt.pat)?;
        or_drop!(self.enter(names), pat);
        let rhs = or_drop!(self.rhs(alloc, &alt.rhs), pat);
        self.leave();
        Ok(Alt { pat, rhs })
    }

    #[cycle(exprs)]
    #[tactic(auto, using(hm_names::proofs::Rows::alternative_falls))]
    fn alt_row(&mut self, alloc: Global, row: &[Alt]) -> Result<Vec<Alt>, AllocError>
        ensures trees { IfOk result (λ rest. rest.items ≡ map (alternative_with (resolver_of self.old.known) (locals_of self.old)) row.now) }
        ensures state { OnOk result (self.new ≡ noting (alternatives_faults self.old.known (locals_of self.old) (alternatives row.now)) self.old) }
    {
        let mut resolved = Vec::with_capacity(alloc, row.len())?;
        'row: for alt in row {
            resolved.push(self.alt(alloc, alt)?)?;
        }
        Ok(resolved)
    }

    /// Returns a right side with its names resolved. Its local declarations scope over all of it.
    #[cycle(exprs)]
    #[tactic(auto, using(hm_names::proofs::Rows::noting_more, hm_names::proofs::Rows::declarations_map, hm_names::proofs::Rows::parts_map, hm_names::proofs::Rows::parts_are))]
    fn rhs(&mut self, alloc: Global, rhs: &Rhs) -> Result<Rhs, AllocError>
        ensures tree { IfOk result (λ r. r ≡ right_side_with (resolver_of self.old.known) (locals_of self.old) rhs.now) }
        ensures state { OnOk result (self.new ≡ noting (right_side_faults self.old.known (locals_of self.old) rhs.now) self.old) }
    {
        if rhs.local.as_slice().is_empty() {
            let parts = self.part_row(alloc, &rhs.parts)?;
            let local = Vec::new(alloc);
            return Ok(Rhs { parts, local });
        }
        self.enter_list(alloc, &rhs.local)?;
        let parts = self.part_row(alloc, &rhs.parts)?;
        let local = self.decl_list(alloc, &rhs.local)?;
        self.leave();
        Ok(Rhs { parts, local })
    }

    /// Returns the expressions of a right side with their guards, with their names resolved.
    #[cycle(exprs)]
    #[tactic(auto, using(hm_names::proofs::Rows::part_falls))]
    fn part_row(
        &mut self,
        alloc: Global,
        row: &[(Option<Expr>, Expr)],
    ) -> Result<Vec<(Option<Expr>, Expr)>, AllocError>
        ensures trees { IfOk result (λ ps. ps.items ≡ map (part_with (resolver_of self.old.known) (locals_of self.old)) row.now) }
        ensures state { OnOk result (self.new ≡ noting (parts_faults self.old.known (locals_of self.old) row.now) self.old) }
    {
        let mut resolved = Vec::with_capacity(alloc, row.len())?;
        'row: for part in row {
            resolved.push(self.part(alloc, part)?)?;
        }
        Ok(resolved)
    }

    #[cycle(exprs)]
    #[tactic(auto, using(hm_names::proofs::Rows::noting_more))]
    fn part(
        &mut self,
        alloc: Global,
        part: &(Option<Expr>, Expr),
    ) -> Result<(Option<Expr>, Expr), AllocError>
        ensures tree { IfOk result (λ p. p ≡ part_with (resolver_of self.old.known) (locals_of self.old) part.now) }
        ensures state { OnOk result (self.new ≡ noting (part_faults self.old.known (locals_of self.old) part.now) self.old) }
    {
        let guard = self.guard(alloc, &part.0)?;
        let body = or_drop!(self.expr(alloc, &part.1), guard);
        Ok((guard, body))
    }

    #[cycle(exprs)]
    fn guard(&mut self, alloc: Global, guard: &Option<Expr>) -> Result<Option<Expr>, AllocError>
        ensures tree { IfOk result (λ g. g ≡ guard_with (resolver_of self.old.known) (locals_of self.old) guard.now) }
        ensures state { OnOk result (self.new ≡ noting (guard_faults self.old.known (locals_of self.old) guard.now) self.old) }
    {
        match guard {
            None => Ok(None),
            Some(expr) => Ok(Some(self.expr(alloc, expr)?)),
        }
    }

    /// Returns a declaration with its names resolved. The names of its list must be local already. Names that it declares stay as they are.
    #[cycle(exprs)]
    fn decl(&mut self, alloc: Global, home: &Option<Text>, decl: &Decl) -> Result<Decl, AllocError>
        ensures tree { IfOk result (λ d. d ≡ declaration_with (resolver_of self.old.known) (binder_of home.now) (locals_of self.old) decl.now) }
        ensures state { OnOk result (self.new ≡ noting (declaration_faults self.old.known (locals_of self.old) decl.now) self.old) }
    {
        match &decl.kind {
            DeclKind::DataType {
                name,
                params,
                constrs,
            } => {
                let head = TypeHead { home, name, params };
                Ok(self.data_type(alloc, &head, constrs)?)
            }
            DeclKind::Newtype {
                name,
                params,
                constr,
            } => {
                let head = TypeHead { home, name, params };
                Ok(self.newtype(alloc, &head, constr)?)
            }
            DeclKind::Synonym { name, params, ty } => {
                let head = TypeHead { home, name, params };
                Ok(self.synonym(alloc, &head, ty)?)
            }
            DeclKind::Signature { names, ty } => Ok(self.signature(alloc, home, names, ty)?),
            DeclKind::Clause { name, pats, rhs } => {
                let given = FunctionClause { name, pats, rhs };
                Ok(self.clause(alloc, home, &given)?)
            }
            DeclKind::Pattern { place, pat, rhs } => {
                let place = *place;
                let given = PatternBinding { place, pat, rhs };
                Ok(self.binding(alloc, home, &given)?)
            }
        }
    }

    /// Returns a clause of a variable's binding with its names resolved.
    #[cycle(exprs)]
    #[tactic(auto, using(hm_names::proofs::Rows::noting_more, hm_names::proofs::Rows::patterns_map))]
    #[inline(never)]
    fn clause(
        &mut self,
        alloc: Global,
        home: &Option<Text>,
        given: &FunctionClause<'_>,
    ) -> Result<Decl, AllocError>
        ensures tree { IfOk result (λ d. d ≡ declaration_with (resolver_of self.old.known) (binder_of home.now) (locals_of self.old)
            (clause given.now.name.now (patterns given.now.pats.now) given.now.rhs.now)) }
        ensures state { OnOk result (self.new ≡ noting
            (declaration_faults self.old.known (locals_of self.old) (clause given.now.name.now (patterns given.now.pats.now) given.now.rhs.now)) self.old) }
    {
        let (pats, names) = self.head(alloc, given.pats)?;
        self.enter(names)?;
        let rhs = self.rhs(alloc, given.rhs)?;
        self.leave();
        Ok(Decl {
            kind: DeclKind::Clause {
                name: bound_name(alloc, home, given.name)?,
                pats,
                rhs,
            },
        })
    }

    /// Returns a pattern binding with its names resolved. Its variables must be local already.
    #[cycle(exprs)]
    #[tactic(auto, using(hm_names::proofs::Rows::noting_more))]
    #[inline(never)]
    fn binding(
        &mut self,
        alloc: Global,
        home: &Option<Text>,
        given: &PatternBinding<'_>,
    ) -> Result<Decl, AllocError>
        ensures tree { IfOk result (λ d. d ≡ declaration_with (resolver_of self.old.known) (binder_of home.now) (locals_of self.old)
            (pattern_binding given.now.place.line given.now.place.column given.now.pat.now given.now.rhs.now)) }
        ensures state { OnOk result (self.new ≡ noting
            (declaration_faults self.old.known (locals_of self.old)
            (pattern_binding given.now.place.line given.now.place.column given.now.pat.now given.now.rhs.now)) self.old) }
    {
        let (pat, _) = self.lone(alloc, home, given.pat)?;
        let rhs = or_drop!(self.rhs(alloc, given.rhs), pat);
        let place = given.place;
        Ok(Decl {
            kind: DeclKind::Pattern { place, pat, rhs },
        })
    }

    /// Returns declarations with their names resolved. The names that they declare must be local already.
    #[cycle(exprs)]
    #[tactic(auto, using(hm_names::proofs::Rows::declaration_falls))]
    pub(crate) fn decl_row(
        &mut self,
        alloc: Global,
        home: &Option<Text>,
        row: &[Decl],
    ) -> Result<Vec<Decl>, AllocError>
        ensures trees { IfOk result (λ ds. ds.items ≡ map (declaration_with (resolver_of self.old.known) (binder_of home.now) (locals_of self.old)) row.now) }
        ensures state { OnOk result (self.new ≡ noting (declarations_faults self.old.known (locals_of self.old) (declarations row.now)) self.old) }
    {
        let mut resolved = Vec::with_capacity(alloc, row.len())?;
        'row: for decl in row {
            resolved.push(self.decl(alloc, home, decl)?)?;
        }
        Ok(resolved)
    }

    /// Returns the declarations of a local list with their names resolved. The names that they declare must be local already.
    #[cycle(exprs)]
    #[tactic(auto, using(hm_names::proofs::Rows::noting_more))]
    fn decl_list(&mut self, alloc: Global, decls: &[Decl]) -> Result<Vec<Decl>, AllocError>
        ensures trees { IfOk result (λ ds. ds.items ≡ map (declaration_with (resolver_of self.old.known) bare (locals_of self.old)) decls.now) }
        ensures state { OnOk result (self.new ≡ noting (list_faults (declarations decls.now)
            ++ declarations_faults self.old.known (locals_of self.old) (declarations decls.now)) self.old) }
    {
        let home = None;
        self.note_list(alloc, decls)?;
        Ok(self.decl_row(alloc, &home, decls)?)
    }

    /// Enters the scope of the names that a list of declarations binds.
    fn enter_list(&mut self, alloc: Global, decls: &[Decl]) -> Result<(), AllocError>
        ensures { OnOk result (self.new ≡ entering (texts (bound_names (declarations decls.now))) self.old) }
    {
        let mut names = LentNames::new(alloc);
        add_all_bound(&mut names, decls)?;
        Ok(self.enter(owned_names(alloc, &names)?)?)
    }
}
