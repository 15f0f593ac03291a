//! Expressions and declarations (Haskell 98 Report, sections 3 and 4.4).
ghost use Rattle.std.specs.Prelude.{◌≡◌, [], ◌∷◌, false, IfOk};
ghost use Rattle.hm_parse_grammar.specs.Reading.Basics.{peek, is_at, loop, behind, next_of, list_in};
ghost use Rattle.hm_parse_grammar.specs.Reading.Expressions.{list_of_expressions, var_at, exp_with, aexp_by, aexp_step, guarded_in, bodies_with, rhs_with, alts_with, case_with, opd_with, link, typed_behind, consed, cons_expression, open_by, lambda_with, let_with, if_with, signature_with, begins_binding, binding_of, binding_with, decl_with, all_expressions};
ghost use Rattle.hm_parse_grammar.specs.Reading.Answers.{Gives};
ghost use Rattle.hm_parse_grammar.specs.declared.symbol.Symbol.TheVariants.{Open};

use crate::cursor::{Context, Parser};
use crate::owned::{both_boxed, boxed, first_of_two, only};
use crate::types::MAX_COMPONENTS;
use hm_lex::Place;
use hm_parse_grammar::{ParseFault, Symbol};
use hm_syntax::{Alt, Decl, DeclKind, Expr, ExprKind, Name, Pat, PatKind, Rhs};
use std::alloc::{AllocError, Global};

impl Parser<'_> {
    // Why: docs/DECISIONS.md, "One cycle".
    /// Reads an expression. A type may follow it if it is closed.
    #[cycle(exprs)]
    #[tactic(auto, using(crate::proofs::ExpressionLoops::chain_shorter, crate::proofs::ColonLoops::exp_open, crate::proofs::ColonLoops::exp_open_none), unfolding(hm_parse_grammar::specs::Reading::Expressions::exp_with))]
    pub(crate) fn exp(&mut self, alloc: Global, context: Context) -> Result<Expr, ParseFault>
        ensures { Gives (λ e. (e, self.new)) result (exp_with all_expressions self.old) }
    {
        if self.symbol().begins_open() {
            return Ok(self.open_exp(alloc, context)?);
        }
        let (e, is_open) = self.chain(alloc, context)?;
        if is_open || !self.at(Symbol::OfType) {
            return Ok(e);
        }
        self.note_type(context);
        self.skip();
        Ok(self.typed(alloc, e)?)
    }

    /// Reads an expression into a box.
    #[cycle(exprs)]
    fn boxed_exp(&mut self, alloc: Global, context: Context) -> Result<Box<Expr>, ParseFault>
        ensures { Gives (λ b. (b.value, self.new)) result (exp_with all_expressions self.old) }
    {
        let e = self.exp(alloc, context)?;
        Ok(boxed(alloc, e)?)
    }

    /// Reads the type after `::` of an expression.
    #[inline(never)]
    fn typed(&mut self, alloc: Global, e: Expr) -> Result<Expr, ParseFault>
        ensures { Gives (λ whole. (whole, self.new)) result (typed_behind e self.old) }
    {
        let e = boxed(alloc, e)?;
        let ty = self.type_expr(alloc)?;
        Ok(Expr {
            kind: ExprKind::Typed(e, ty),
        })
    }

    // Why: docs/DECISIONS.md, "Chains of colons".
    /// Reads operands with colons between them, or an expression that extends as far right as it can. Returns whether it is open.
    #[cycle(exprs)]
    #[tactic(auto, using(crate::proofs::ColonLoops::chain_open, crate::proofs::ColonLoops::chain_open_none, crate::proofs::ColonLoops::chain_closed, crate::proofs::ColonLoops::chain_closed_none, crate::proofs::ColonLoops::chain_alone, crate::proofs::ExpressionLoops::opd_shorter))]
    fn chain(&mut self, alloc: Global, context: Context) -> Result<(Expr, bool), ParseFault>
        ensures { Gives (λ x. (x, self.new)) result (all_expressions.chain self.old) }
    {
        if self.symbol().begins_open() {
            let e = self.open_exp(alloc, context)?;
            return Ok((e, true));
        }
        let first = self.operand(alloc)?;
        if !self.at(Symbol::Colon) {
            return Ok((first, false));
        }
        Ok(self.colons(alloc, context, first)?)
    }

    /// Reads the rest of a chain after its first operand. Keeps the operands, and joins them from the last.
    #[cycle(exprs)]
    #[tactic(auto, using(crate::proofs::ColonLoops::behind_nothing, crate::proofs::ColonLoops::colons_open, crate::proofs::ColonLoops::colons_open_none, crate::proofs::ColonLoops::colons_go_on, crate::proofs::ColonLoops::colons_none, crate::proofs::ColonLoops::colons_end, crate::proofs::ExpressionLoops::opd_shorter, crate::proofs::ExpressionLoops::colon_shorter))]
    #[inline(never)]
    fn colons(
        &mut self,
        alloc: Global,
        context: Context,
        first: Expr,
    ) -> Result<(Expr, bool), ParseFault>
        ensures { Gives (λ x. (x, self.new)) result (link all_expressions first self.old) }
    {
        let mut last = first;
        let mut operands = Vec::new(alloc);
        'colons: while self.at(Symbol::Colon) {
            let linked = self.with_colon(alloc, last)?;
            operands.push(linked)?;
            if self.symbol().begins_open() {
                let e = self.open_exp(alloc, context)?;
                let whole = cons_all(alloc, operands, e)?;
                return Ok((whole, true));
            }
            last = self.operand(alloc)?;
        }
        let whole = cons_all(alloc, operands, last)?;
        Ok((whole, false))
    }

    /// Reads a lambda, a `let` or an `if`.
    #[cycle(exprs)]
    #[tactic(auto, using(crate::proofs::ExpressionLoops::backslash_shorter, crate::proofs::ExpressionLoops::let_shorter, crate::proofs::ExpressionLoops::if_shorter))]
    #[inline(never)]
    fn open_exp(&mut self, alloc: Global, context: Context) -> Result<Expr, ParseFault>
        ensures { Gives (λ e. (e, self.new)) result (open_by all_expressions (peek self.old) self.old) }
    {
        match self.symbol() {
            Symbol::Backslash => {
                self.skip();
                self.lambda(alloc, context)
            }
            Symbol::Let => {
                self.skip();
                self.let_in(alloc, context)
            }
            Symbol::If => {
                self.skip();
                self.if_then_else(alloc, context)
            }
            _ => Err(ParseFault::Syntax(self.place())),
        }
    }

    /// Reads a lambda after its backslash.
    #[cycle(exprs)]
    #[tactic(auto, using(crate::proofs::ExpressionLoops::apats_shorter, crate::proofs::ExpressionLoops::expect_shorter, crate::proofs::ExpressionLoops::lambda_read, crate::proofs::ExpressionLoops::lambda_without, crate::proofs::ExpressionLoops::lambda_no_pattern, crate::proofs::ExpressionLoops::lambda_no_arrow, crate::proofs::ExpressionLoops::lambda_no_body))]
    fn lambda(&mut self, alloc: Global, context: Context) -> Result<Expr, ParseFault>
        ensures { Gives (λ e. (e, self.new)) result (lambda_with all_expressions self.old) }
    {
        if !self.symbol().begins_apat() {
            return Err(ParseFault::Syntax(self.place()));
        }
        let params = self.apats(alloc)?;
        let params = self.before(params, Symbol::Arrow)?;
        let body = or_drop!(self.boxed_exp(alloc, context), params);
        Ok(Expr {
            kind: ExprKind::Lambda(params, body),
        })
    }

    /// Reads a `let` after that word.
    #[cycle(exprs)]
    #[tactic(auto, using(crate::proofs::ExpressionLoops::decls_shorter, crate::proofs::ExpressionLoops::expect_shorter), unfolding(hm_parse_grammar::specs::Reading::Expressions::let_with))]
    fn let_in(&mut self, alloc: Global, context: Context) -> Result<Expr, ParseFault>
        ensures { Gives (λ e. (e, self.new)) result (let_with all_expressions self.old) }
    {
        let local = self.decls(alloc)?;
        let local = self.before(local, Symbol::In)?;
        let body = or_drop!(self.boxed_exp(alloc, context), local);
        Ok(Expr {
            kind: ExprKind::Let(local, body),
        })
    }

    /// Reads an `if` after that word.
    #[cycle(exprs)]
    #[tactic(auto, using(crate::proofs::ExpressionLoops::exp_shorter, crate::proofs::ExpressionLoops::expect_shorter), unfolding(hm_parse_grammar::specs::Reading::Expressions::if_with))]
    fn if_then_else(&mut self, alloc: Global, context: Context) -> Result<Expr, ParseFault>
        ensures { Gives (λ e. (e, self.new)) result (if_with all_expressions self.old) }
    {
        let test = self.boxed_exp(alloc, Context::Elsewhere)?;
        let test = self.before(test, Symbol::Then)?;
        let consequence = or_drop!(self.boxed_exp(alloc, Context::Elsewhere), test);
        or_drop!(self.expect(Symbol::Else), test, consequence);
        let alternative = or_drop!(self.boxed_exp(alloc, context), test, consequence);
        Ok(Expr {
            kind: ExprKind::If(test, consequence, alternative),
        })
    }

    /// Reads an application or a `case`.
    #[cycle(exprs)]
    #[tactic(auto, using(crate::proofs::ExpressionLoops::aexp_shorter, crate::proofs::ExpressionLoops::case_shorter, crate::proofs::ExpressionLoops::args_go_on, crate::proofs::ExpressionLoops::args_end, crate::proofs::ExpressionLoops::args_fail), unfolding(hm_parse_grammar::specs::Reading::Expressions::opd_with))]
    #[inline(never)]
    fn operand(&mut self, alloc: Global) -> Result<Expr, ParseFault>
        ensures { Gives (λ e. (e, self.new)) result (opd_with all_expressions self.old) }
    {
        if self.at(Symbol::Case) {
            self.skip();
            return self.case_of(alloc);
        }
        let mut head = self.aexp(alloc)?;
        'apply: while self.symbol().begins_aexp() {
            let function = boxed(alloc, head)?;
            let argument = self.aexp(alloc)?;
            let argument = boxed(alloc, argument)?;
            head = Expr {
                kind: ExprKind::Apply(function, argument),
            };
        }
        Ok(head)
    }

    /// Reads a `case` after that word.
    #[cycle(exprs)]
    #[tactic(auto, using(crate::proofs::ExpressionLoops::exp_shorter, crate::proofs::ExpressionLoops::expect_shorter), unfolding(hm_parse_grammar::specs::Reading::Expressions::case_with))]
    fn case_of(&mut self, alloc: Global) -> Result<Expr, ParseFault>
        ensures { Gives (λ e. (e, self.new)) result (case_with all_expressions self.old) }
    {
        let subject = self.boxed_exp(alloc, Context::Elsewhere)?;
        let subject = self.before(subject, Symbol::Of)?;
        let subject = self.before(subject, Symbol::LeftBrace)?;
        let alts = or_drop!(self.alts(alloc), subject);
        Ok(Expr {
            kind: ExprKind::Case(subject, alts),
        })
    }

    /// Reads the alternatives of a `case`, at least one, and the brace that ends them.
    #[cycle(exprs)]
    #[tactic(auto, using(crate::proofs::ExpressionLoops::past_shorter, crate::proofs::ExpressionLoops::pattern_shorter, crate::proofs::ExpressionLoops::alts_none, crate::proofs::ExpressionLoops::alts_start, crate::proofs::ExpressionLoops::alts_go_on, crate::proofs::ExpressionLoops::alts_end, crate::proofs::ExpressionLoops::alts_no_pattern, crate::proofs::ExpressionLoops::alts_no_rhs, crate::proofs::ExpressionLoops::alts_open, crate::proofs::ExpressionLoops::next_alts_shorter))]
    fn alts(&mut self, alloc: Global) -> Result<Vec<Alt>, ParseFault>
        ensures { Gives (λ v. (v.items, self.new)) result (alts_with all_expressions self.old) }
    {
        if self.reaches_brace() {
            return Err(ParseFault::Syntax(self.place()));
        }
        let mut found = Vec::new(alloc);
        'alts: while !self.reaches_brace() {
            let pat = self.pat(alloc)?;
            let rhs = or_drop!(self.rhs(alloc, Symbol::Arrow), pat);
            found.push(Alt { pat, rhs })?;
            self.item_end(Symbol::Semicolon, Symbol::RightBrace)?;
        }
        self.skip();
        Ok(found)
    }

    /// Reads a right side with its local declarations. It begins with this mark, or with guards and this mark.
    #[cycle(exprs)]
    #[tactic(auto, using(crate::proofs::ExpressionLoops::bodies_shorter, crate::proofs::ExpressionLoops::where_shorter), unfolding(hm_parse_grammar::specs::Reading::Expressions::rhs_with, hm_parse_grammar::specs::Reading::Expressions::where_with))]
    fn rhs(&mut self, alloc: Global, mark: Symbol) -> Result<Rhs, ParseFault>
        requires { is_at mark [] ≡ false }
        ensures { Gives (λ b. (b, self.new)) result (rhs_with all_expressions mark self.old) }
    {
        let parts = self.bodies(alloc, mark)?;
        if !self.at(Symbol::Where) {
            let local = Vec::new(alloc);
            return Ok(Rhs { parts, local });
        }
        self.skip();
        let local = or_drop!(self.decls(alloc), parts);
        Ok(Rhs { parts, local })
    }

    /// Reads the expressions of a right side, with their guards.
    #[cycle(exprs)]
    #[tactic(auto, using(crate::proofs::ExpressionLoops::symbol_shorter, crate::proofs::ExpressionLoops::bar_shorter, crate::proofs::ExpressionLoops::body_alone, crate::proofs::ExpressionLoops::body_none, crate::proofs::ExpressionLoops::bodies_none, crate::proofs::ExpressionLoops::guards_start, crate::proofs::ExpressionLoops::guards_go_on, crate::proofs::ExpressionLoops::guards_end, crate::proofs::ExpressionLoops::guards_fail, crate::proofs::ExpressionLoops::next_guarded_shorter))]
    fn bodies(
        &mut self,
        alloc: Global,
        mark: Symbol,
    ) -> Result<Vec<(Option<Expr>, Expr)>, ParseFault>
        requires { is_at mark [] ≡ false }
        ensures { Gives (λ v. (v.items, self.new)) result (bodies_with all_expressions mark self.old) }
    {
        if self.at(mark) {
            self.skip();
            let body = self.exp(alloc, Context::Elsewhere)?;
            return Ok(only(alloc, (None, body))?);
        }
        if !self.at(Symbol::Bar) {
            return Err(ParseFault::Syntax(self.place()));
        }
        let mut found = Vec::new(alloc);
        'guards: while self.at(Symbol::Bar) {
            self.skip();
            found.push(self.guarded(alloc, mark)?)?;
        }
        Ok(found)
    }

    /// Reads a guard, the mark and an expression after a bar.
    #[cycle(exprs)]
    #[tactic(auto, using(crate::proofs::ExpressionLoops::chain_shorter, crate::proofs::ExpressionLoops::expect_shorter), unfolding(hm_parse_grammar::specs::Reading::Expressions::guarded_in))]
    fn guarded(&mut self, alloc: Global, mark: Symbol) -> Result<(Option<Expr>, Expr), ParseFault>
        ensures { Gives (λ x. (x, self.new)) result (guarded_in all_expressions mark self.old) }
    {
        let (test, _) = self.chain(alloc, Context::of_guard(mark))?;
        let guard = self.before(test, mark)?;
        let body = or_drop!(self.exp(alloc, Context::Elsewhere), guard);
        Ok((Some(guard), body))
    }

    /// Reads an expression that needs no parentheses.
    #[cycle(exprs)]
    #[tactic(auto, using(crate::proofs::TypeLoops::square_shorter), unfolding(hm_parse_grammar::specs::Reading::Expressions::aexp_step))]
    pub(crate) fn aexp(&mut self, alloc: Global) -> Result<Expr, ParseFault>
        ensures { Gives (λ e. (e, self.new)) result (aexp_step all_expressions self.old) }
    {
        if self.begins_gcon() {
            let name = self.gcon(alloc)?;
            return Ok(Expr {
                kind: ExprKind::Con(name),
            });
        }
        match self.symbol() {
            Symbol::Var | Symbol::QVar => {
                let name = self.name(alloc)?;
                Ok(Expr {
                    kind: ExprKind::Var(name),
                })
            }
            Symbol::Integer | Symbol::Character | Symbol::Text => {
                let literal = self.literal(alloc)?;
                Ok(Expr {
                    kind: ExprKind::Literal(literal),
                })
            }
            Symbol::Open => self.exp_in(alloc),
            Symbol::OpenSquare => {
                self.skip();
                self.exp_list(alloc)
            }
            _ => Err(ParseFault::Syntax(self.place())),
        }
    }

    /// Reads an expression or a tuple in parentheses. A comma after the last allowed component is a fault.
    #[cycle(exprs)]
    #[tactic(auto, using(crate::proofs::Loops::open_shorter, crate::proofs::TypeLoops::comma_shorter, crate::proofs::ExpressionLoops::exp_shorter, crate::proofs::ExpressionLoops::no_expression, crate::proofs::ExpressionLoops::alone, crate::proofs::ExpressionLoops::alone_open, crate::proofs::ExpressionLoops::components_start, crate::proofs::ExpressionLoops::components_go_on, crate::proofs::ExpressionLoops::components_end, crate::proofs::ExpressionLoops::components_open, crate::proofs::ExpressionLoops::components_fail, crate::proofs::ExpressionLoops::components_many))]
    fn exp_in(&mut self, alloc: Global) -> Result<Expr, ParseFault>
        requires { peek self.old ≡ Open }
        ensures { Gives (λ e. (e, self.new)) result (aexp_by all_expressions Open self.old) }
    {
        self.skip();
        let first = self.exp(alloc, Context::Elsewhere)?;
        if !self.at(Symbol::Comma) {
            return Ok(self.before(first, Symbol::Close)?);
        }
        let mut found = first_of_two(alloc, first)?;
        'components: while self.at(Symbol::Comma) {
            if found.len() == MAX_COMPONENTS {
                return Err(ParseFault::Syntax(self.place()));
            }
            self.skip();
            found.push(self.exp(alloc, Context::Elsewhere)?)?;
        }
        self.expect(Symbol::Close)?;
        Ok(Expr {
            kind: ExprKind::Tuple(found),
        })
    }

    /// Reads a list after `[`.
    #[cycle(exprs)]
    #[tactic(auto, using(crate::proofs::TypeLoops::comma_shorter, crate::proofs::ExpressionLoops::exp_shorter, crate::proofs::ExpressionLoops::elements_none, crate::proofs::ExpressionLoops::elements_start, crate::proofs::ExpressionLoops::elements_go_on, crate::proofs::ExpressionLoops::elements_end, crate::proofs::ExpressionLoops::elements_open, crate::proofs::ExpressionLoops::elements_fail))]
    fn exp_list(&mut self, alloc: Global) -> Result<Expr, ParseFault>
        ensures { Gives (λ e. (e, self.new)) result (list_in (exp_with all_expressions) list_of_expressions self.old) }
    {
        let first = self.exp(alloc, Context::Elsewhere)?;
        let mut found = only(alloc, first)?;
        'elements: while self.at(Symbol::Comma) {
            self.skip();
            found.push(self.exp(alloc, Context::Elsewhere)?)?;
        }
        self.expect(Symbol::CloseSquare)?;
        Ok(Expr {
            kind: ExprKind::List(found),
        })
    }

    /// Reads declarations between braces.
    #[cycle(exprs)]
    #[tactic(auto, using(crate::proofs::ExpressionLoops::expect_shorter, crate::proofs::ExpressionLoops::past_shorter, crate::proofs::ExpressionLoops::decls_none, crate::proofs::ExpressionLoops::decls_start, crate::proofs::ExpressionLoops::decls_go_on, crate::proofs::ExpressionLoops::decls_end, crate::proofs::ExpressionLoops::decls_fail, crate::proofs::ExpressionLoops::decls_open, crate::proofs::ExpressionLoops::next_decls_shorter))]
    fn decls(&mut self, alloc: Global) -> Result<Vec<Decl>, ParseFault>
        ensures { Gives (λ v. (v.items, self.new)) result (all_expressions.decls self.old) }
    {
        self.expect(Symbol::LeftBrace)?;
        let mut found = Vec::new(alloc);
        'decls: while !self.reaches_brace() {
            found.push(self.decl(alloc)?)?;
            self.item_end(Symbol::Semicolon, Symbol::RightBrace)?;
        }
        self.skip();
        Ok(found)
    }

    /// Reads a signature, a clause or a pattern binding.
    #[cycle(exprs)]
    #[tactic(auto, using(crate::proofs::ExpressionLoops::variable_shorter, crate::proofs::ExpressionLoops::apats_shorter), unfolding(hm_parse_grammar::specs::Reading::Expressions::decl_with, hm_parse_grammar::specs::Reading::Expressions::named_with, hm_parse_grammar::specs::Reading::Expressions::clause_with))]
    pub(crate) fn decl(&mut self, alloc: Global) -> Result<Decl, ParseFault>
        ensures { Gives (λ d. (d, self.new)) result (decl_with all_expressions self.old) }
    {
        if self.begins_binding() {
            return self.binding(alloc);
        }
        let name = self.var(alloc)?;
        if self.symbol().begins_signature() {
            return self.signature(alloc, name);
        }
        let pats = or_drop!(self.apats(alloc), name);
        let rhs = or_drop!(self.rhs(alloc, Symbol::Equals), name, pats);
        Ok(Decl {
            kind: DeclKind::Clause { name, pats, rhs },
        })
    }

    /// Returns whether a pattern binding begins here, by the first two tokens of a declaration.
    #[tactic(auto, unfolding(hm_parse_grammar::specs::Reading::Expressions::begins_binding))]
    fn begins_binding(&self) -> bool
        ensures { result ≡ begins_binding self.now }
    {
        let second = self.second();
        match self.symbol() {
            Symbol::Var => second.continues_pattern(),
            _ => true,
        }
    }

    /// Reads a pattern binding. A binding of a single variable becomes a clause.
    #[cycle(exprs)]
    #[tactic(auto, using(crate::proofs::ExpressionLoops::pattern_shorter, crate::proofs::ExpressionLoops::binding_is), unfolding(hm_parse_grammar::specs::Reading::Expressions::binding_with))]
    #[inline(never)]
    fn binding(&mut self, alloc: Global) -> Result<Decl, ParseFault>
        ensures { Gives (λ d. (d, self.new)) result (binding_with all_expressions self.old) }
    {
        let place = self.place();
        let pat = self.pat(alloc)?;
        let rhs = or_drop!(self.rhs(alloc, Symbol::Equals), pat);
        Ok(binding_of(alloc, place, pat, rhs)?)
    }

    /// Reads the name of a variable.
    #[tactic(auto, unfolding(hm_parse_grammar::specs::Reading::Expressions::var_at))]
    fn var(&mut self, alloc: Global) -> Result<Name, ParseFault>
        ensures { Gives (λ n. (n, self.new)) result (var_at self.old) }
    {
        if self.at(Symbol::Var) {
            self.name(alloc)
        } else {
            Err(ParseFault::Syntax(self.place()))
        }
    }

    /// Reads the variables after a first one.
    #[tactic(auto, using(crate::proofs::TypeLoops::comma_shorter, crate::proofs::ExpressionLoops::vars_go_on, crate::proofs::ExpressionLoops::vars_end, crate::proofs::ExpressionLoops::vars_fail, crate::proofs::ExpressionLoops::next_vars_shorter))]
    fn vars(&mut self, alloc: Global, first: Name) -> Result<Vec<Name>, ParseFault>
        ensures { Gives (λ v. (v.items, self.new)) result (behind (first ∷ []) (loop (next_of var_at) self.old)) }
    {
        let mut found = only(alloc, first)?;
        'vars: while self.at(Symbol::Comma) {
            self.skip();
            found.push(self.var(alloc)?)?;
        }
        Ok(found)
    }

    /// Reads a signature after its first variable.
    #[tactic(auto, unfolding(hm_parse_grammar::specs::Reading::Expressions::signature_with))]
    fn signature(&mut self, alloc: Global, first: Name) -> Result<Decl, ParseFault>
        ensures { Gives (λ d. (d, self.new)) result (signature_with all_expressions first self.old) }
    {
        let names = self.vars(alloc, first)?;
        self.expect(Symbol::OfType)?;
        let ty = self.type_expr(alloc)?;
        Ok(Decl {
            kind: DeclKind::Signature { names, ty },
        })
    }
}

// Why: docs/DECISIONS.md, "Pattern bindings".
/// Returns a pattern binding whose first token has this place, or the clause of a single variable.
fn binding_of(alloc: Global, place: Place, pat: Pat, rhs: Rhs) -> Result<Decl, AllocError>
    ensures { IfOk result (λ d. d ≡ binding_of place.line place.column pat rhs) }
{
    let kind = match &pat.kind {
        PatKind::Var(name) => DeclKind::Clause {
            name: name.copy()?,
            pats: Vec::new(alloc),
            rhs,
        },
        _ => DeclKind::Pattern { place, pat, rhs },
    };
    Ok(Decl { kind })
}

/// Joins the operands, each with the colon after it, and the last: colons associate to the right.
#[tactic(auto, using(crate::proofs::ColonLoops::consed_on))]
#[inline(never)]
fn cons_all(alloc: Global, operands: Vec<(Expr, Name)>, last: Expr) -> Result<Expr, AllocError>
    ensures { IfOk result (λ e. e ≡ consed operands.items last) }
{
    let mut operands = operands;
    let mut whole = last;
    'operands: while let Some((operand, colon)) = operands.pop() {
        whole = cons(alloc, operand, colon, whole)?;
    }
    Ok(whole)
}

/// Joins an operand, a colon and the expression after it.
fn cons(alloc: Global, operand: Expr, colon: Name, rest: Expr) -> Result<Expr, AllocError>
    ensures { IfOk result (λ e. e ≡ cons_expression colon operand rest) }
{
    let (operand, rest) = or_drop!(both_boxed(alloc, operand, rest), colon);
    let colon = Expr {
        kind: ExprKind::Con(colon),
    };
    let colon = boxed(alloc, colon)?;
    let half = Expr {
        kind: ExprKind::Apply(colon, operand),
    };
    let half = boxed(alloc, half)?;
    Ok(Expr {
        kind: ExprKind::Apply(half, rest),
    })
}
