//! The trees of modules. They don't keep parentheses. Contracts see a tree as a value of a family of `specs/Trees`: each recursive type is a
//! struct around the enum of its kinds.
//!
//! Special constructors are ordinary names: `()`, `[]`, `:`, `(,)`, `(,,)` and so on, without a qualifier, at the place of their first token.
//!
//! `Drop` is written by hand and not derived, so that it is proved once here and not in each crate that drops a tree.
ghost use Rattle.std.specs.Prelude.{◌≡◌, IfOk};

use hm_lex::Place;
use hm_texts::Text;
use std::alloc::AllocError;
use std::marker::Model;

// Why: docs/DECISIONS.md, "Places in trees".
/// A name as it is written, with the place of its first byte.
pub struct Name {
    /// The part before the last dot. The name of a module has none: its whole text is in `text`.
    pub qualifier: Option<Text>,
    /// The part after the last dot, or the whole name.
    pub text: Text,
    pub place: Place,
}

impl Drop for Name {
    // Why: docs/DECISIONS.md, "Drops".
    fn drop(self) {
        let Name {
            qualifier: _qualifier,
            text: _text,
            place: _,
        } = self;
    }
}

impl Model for Name {
    ghost use Rattle.hm_syntax.specs.Names.{Identifier};

    ghost Value = { Identifier };

    ghost view = { λ n. record { qualifier = n.qualifier; text = n.text; line = n.place.line; column = n.place.column } };
}

/// A literal as it is written.
#[derive(Drop)]
pub struct Literal {
    pub kind: LiteralKind,
}

/// The kinds of literals, each with its text, including quotes (Report, sections 2.5 and 2.6).
pub enum LiteralKind {
    Integer(Text),
    Character(Text),
    /// A string literal.
    Text(Text),
}

impl Drop for LiteralKind {
    fn drop(self) {
        match self {
            LiteralKind::Integer(_text) => {}
            LiteralKind::Character(_text) => {}
            LiteralKind::Text(_text) => {}
        }
    }
}

impl Model for Literal {
    ghost use Rattle.hm_syntax.specs.Names.{LiteralTree};

    ghost Value = { LiteralTree };

    ghost use Rattle.hm_syntax.specs.Views.OfLiterals.{literal_of};

    ghost view = { λ l. literal_of l.kind };
}

/// A type (Report, section 4.1.2).
#[derive(Drop)]
#[cycle(types)]
pub struct TypeExpr {
    pub kind: TypeKind,
}

/// The kinds of types.
#[cycle(types)]
pub enum TypeKind {
    /// A type variable.
    Var(Name),
    /// A type constructor with the arguments that are written.
    Con(Name, Vec<TypeExpr>),
    /// A function type, from the first to the second.
    Arrow(Box<TypeExpr>, Box<TypeExpr>),
    /// The type of tuples with these components, 2 to 15.
    Tuple(Vec<TypeExpr>),
    /// The type of lists with elements of this type.
    List(Box<TypeExpr>),
    /// The type `()`.
    Unit,
}

impl Drop for TypeKind {
    #[cycle(type_drop)]
    fn drop(self) {
        match self {
            TypeKind::Var(_name) => {}
            TypeKind::Con(_name, _types) => {}
            TypeKind::Arrow(_from, _to) => {}
            TypeKind::Tuple(_types) => {}
            TypeKind::List(_element) => {}
            TypeKind::Unit => {}
        }
    }
}

impl Model for TypeExpr {
    ghost use Rattle.hm_syntax.specs.Trees.{TypeTree};
    ghost use Rattle.hm_syntax.specs.Codes.{coded_type};

    ghost Value = { TypeTree };

    ghost coded = { coded_type };

    ghost use Rattle.hm_syntax.specs.Views.OfTypes.{type_of};

    ghost view = { λ t. type_of t.kind };

    ghost use Rattle.hm_syntax.specs.Sizes.{type_size};

    ghost size = { type_size };

    ghost use Rattle.hm_syntax.specs.Falls.OfTypes.{type_smaller};

    ghost size_decreases = { λ a h. type_smaller a.kind };
}

/// A constructor of a data type, with the types of its arguments (Report, section 4.2.1).
#[derive(Drop)]
pub struct Constr {
    pub name: Name,
    pub args: Vec<TypeExpr>,
}

impl Model for Constr {
    ghost use Rattle.hm_syntax.specs.Trees.{DataConstructor, data_constructor};
    ghost use Rattle.hm_syntax.specs.Codes.{coded_constructor};
    ghost use Rattle.hm_syntax.specs.Lists.{types};

    ghost Value = { DataConstructor };

    ghost coded = { coded_constructor };

    ghost view = { λ c. data_constructor c.name (types c.args.items) };
}

/// A pattern (Report, section 3.17).
#[derive(Drop)]
#[cycle(pats)]
pub struct Pat {
    pub kind: PatKind,
}

/// The kinds of patterns. `p : q` is the constructor `:` with both.
#[cycle(pats)]
pub enum PatKind {
    /// A variable, which the pattern binds.
    Var(Name),
    /// A variable, with the pattern after `@`.
    Bound(Name, Box<Pat>),
    /// A constructor with the arguments that are written.
    Con(Name, Vec<Pat>),
    Literal(Literal),
    /// `_`
    Wild,
    /// A tuple with these components, 2 to 15.
    Tuple(Vec<Pat>),
    /// A list with these elements, at least one: `[]` is a constructor.
    List(Vec<Pat>),
    /// A pattern after `~`.
    Lazy(Box<Pat>),
}

impl Drop for PatKind {
    #[cycle(pat_drop)]
    fn drop(self) {
        match self {
            PatKind::Var(_name) => {}
            PatKind::Bound(_name, _pat) => {}
            PatKind::Con(_name, _pats) => {}
            PatKind::Literal(_literal) => {}
            PatKind::Wild => {}
            PatKind::Tuple(_pats) => {}
            PatKind::List(_pats) => {}
            PatKind::Lazy(_pat) => {}
        }
    }
}

impl Model for Pat {
    ghost use Rattle.hm_syntax.specs.Trees.{Pattern};
    ghost use Rattle.hm_syntax.specs.Codes.{coded_pattern};

    ghost Value = { Pattern };

    ghost coded = { coded_pattern };

    ghost use Rattle.hm_syntax.specs.Views.OfPatterns.{pattern_of};

    ghost view = { λ t. pattern_of t.kind };

    ghost use Rattle.hm_syntax.specs.Sizes.{pattern_size};

    ghost size = { pattern_size };

    ghost use Rattle.hm_syntax.specs.Falls.OfPatterns.{pattern_smaller};

    ghost size_decreases = { λ a h. pattern_smaller a.kind };
}

// Why: docs/DECISIONS.md, "Models".
/// An expression (Report, section 3).
#[derive(Drop)]
#[cycle(exprs)]
pub struct Expr {
    pub kind: ExprKind,
}

/// The kinds of expressions. `x : y` is the constructor `:` applied to both.
#[cycle(exprs)]
pub enum ExprKind {
    Var(Name),
    Con(Name),
    Literal(Literal),
    /// A function and one argument (section 3.3).
    Apply(Box<Expr>, Box<Expr>),
    /// At least one pattern, and the body (section 3.3).
    Lambda(Vec<Pat>, Box<Expr>),
    /// The declarations, and the expression after `in` (section 3.12).
    Let(Vec<Decl>, Box<Expr>),
    /// The condition, and the expressions after `then` and `else` (section 3.6).
    If(Box<Expr>, Box<Expr>, Box<Expr>),
    /// The scrutinee, and at least one alternative (section 3.13).
    Case(Box<Expr>, Vec<Alt>),
    /// A tuple with these components, 2 to 15 (section 3.8).
    Tuple(Vec<Expr>),
    /// A list with these elements, at least one: `[]` is a constructor (section 3.7).
    List(Vec<Expr>),
    /// An expression with its type, which is written after `::`.
    Typed(Box<Expr>, TypeExpr),
}

impl Drop for ExprKind {
    #[cycle(expr_drop)]
    fn drop(self) {
        match self {
            ExprKind::Var(_name) => {}
            ExprKind::Con(_name) => {}
            ExprKind::Literal(_literal) => {}
            ExprKind::Apply(_function, _argument) => {}
            ExprKind::Lambda(_pats, _body) => {}
            ExprKind::Let(_decls, _body) => {}
            ExprKind::If(_test, _consequence, _alternative) => {}
            ExprKind::Case(_subject, _alts) => {}
            ExprKind::Tuple(_parts) => {}
            ExprKind::List(_elements) => {}
            ExprKind::Typed(_inner, _ty) => {}
        }
    }
}

/// An alternative of a `case` (Report, section 3.13).
#[derive(Drop)]
#[cycle(exprs)]
pub struct Alt {
    pub pat: Pat,
    pub rhs: Rhs,
}

// Why: docs/DECISIONS.md, "Right sides".
/// The right side of a clause or an alternative (Report, sections 3.13 and 4.4.3).
#[cycle(exprs)]
pub struct Rhs {
    /// The expressions in order, at least one, each with its guard: either one without a guard, or all with guards.
    pub parts: Vec<(Option<Expr>, Expr)>,
    /// The declarations after `where`. Empty without `where`.
    pub local: Vec<Decl>,
}

impl Drop for Rhs {
    #[cycle(expr_drop)]
    fn drop(self) {
        let Rhs {
            parts: _parts,
            local: _local,
        } = self;
    }
}

// Why: docs/DECISIONS.md, "Declarations".
/// A declaration (Report, section 4).
#[derive(Drop)]
#[cycle(exprs)]
pub struct Decl {
    pub kind: DeclKind,
}

/// The kinds of declarations.
#[cycle(exprs)]
pub enum DeclKind {
    /// A data type (section 4.2.1). Only at the top of a module.
    DataType {
        name: Name,
        params: Vec<Name>,
        constrs: Vec<Constr>,
    },
    /// A renamed type: a constructor with one argument (section 4.2.3). Only at the top of a module.
    Newtype {
        name: Name,
        params: Vec<Name>,
        constr: Constr,
    },
    /// A type synonym (section 4.2.2). Only at the top of a module.
    Synonym {
        name: Name,
        params: Vec<Name>,
        ty: TypeExpr,
    },
    /// A type signature for these variables (section 4.4.1).
    Signature {
        names: Vec<Name>,
        ty: TypeExpr,
    },
    /// One clause of a variable's binding (section 4.4.3.1). `x = e` is a clause without patterns.
    Clause {
        name: Name,
        pats: Vec<Pat>,
        rhs: Rhs,
    },
    /// A pattern binding (section 4.4.3.2), with the place of its first token. The pattern isn't just a variable.
    Pattern {
        place: Place,
        pat: Pat,
        rhs: Rhs,
    },
}

impl Drop for DeclKind {
    #[cycle(expr_drop)]
    fn drop(self) {
        match self {
            DeclKind::DataType {
                name: _name,
                params: _params,
                constrs: _constrs,
            } => {}
            DeclKind::Newtype {
                name: _name,
                params: _params,
                constr: _constr,
            } => {}
            DeclKind::Synonym {
                name: _name,
                params: _params,
                ty: _ty,
            } => {}
            DeclKind::Signature {
                names: _names,
                ty: _ty,
            } => {}
            DeclKind::Clause {
                name: _name,
                pats: _pats,
                rhs: _rhs,
            } => {}
            DeclKind::Pattern {
                place: _,
                pat: _pat,
                rhs: _rhs,
            } => {}
        }
    }
}

impl Model for Expr {
    ghost use Rattle.hm_syntax.specs.Trees.{Expression};
    ghost use Rattle.hm_syntax.specs.Codes.{coded_expression};

    ghost Value = { Expression };

    ghost coded = { coded_expression };

    ghost use Rattle.hm_syntax.specs.Views.OfExpressions.{expression_of};

    ghost view = { λ t. expression_of t.kind };

    ghost use Rattle.hm_syntax.specs.Sizes.{expression_size};

    ghost size = { expression_size };

    ghost use Rattle.hm_syntax.specs.Falls.OfExpressions.{expression_smaller};

    ghost size_decreases = { λ a h. expression_smaller a.kind };
}

impl Model for Alt {
    ghost use Rattle.hm_syntax.specs.Trees.{Alternative, alternative};
    ghost use Rattle.hm_syntax.specs.Codes.{coded_alternative};

    ghost Value = { Alternative };

    ghost coded = { coded_alternative };

    ghost view = { λ a. alternative a.pat a.rhs };

    ghost use Rattle.hm_syntax.specs.Sizes.{alternative_size};

    ghost size = { alternative_size };

    ghost use Rattle.std.proofs.Common.{arith};

    ghost size_decreases = { λ a h. Prim.omega arith };
}

impl Model for Rhs {
    ghost use Rattle.hm_syntax.specs.Trees.{RightSide, right_side};
    ghost use Rattle.hm_syntax.specs.Codes.{coded_right_side};
    ghost use Rattle.hm_syntax.specs.Lists.{bodies, declarations};

    ghost Value = { RightSide };

    ghost coded = { coded_right_side };

    ghost view = { λ r. right_side (bodies r.parts.items) (declarations r.local.items) };

    ghost use Rattle.hm_syntax.specs.Sizes.{right_side_size};

    ghost size = { right_side_size };

    ghost use Rattle.hm_syntax.specs.Falls.OfExpressions.{both_fall, bodies_fall, declarations_fall};

    ghost size_decreases = { λ a h. both_fall _ _ _ _ (bodies_fall a.parts.items) (declarations_fall a.local.items) };
}

impl Model for Decl {
    ghost use Rattle.hm_syntax.specs.Trees.{Declaration};
    ghost use Rattle.hm_syntax.specs.Codes.{coded_declaration};

    ghost Value = { Declaration };

    ghost coded = { coded_declaration };

    ghost use Rattle.hm_syntax.specs.Views.OfExpressions.{declaration_of};

    ghost view = { λ d. declaration_of d.kind };

    ghost use Rattle.hm_syntax.specs.Sizes.{declaration_size};

    ghost size = { declaration_size };

    ghost use Rattle.hm_syntax.specs.Falls.OfExpressions.{declaration_smaller};

    ghost size_decreases = { λ a h. declaration_smaller a.kind };
}

// Why: docs/DECISIONS.md, "Lists and texts".
/// A row of things. Contracts see a list.
#[derive(Drop)]
pub struct Row<T> {
    pub items: Vec<T>,
}

impl<T> Model for Row<T> {
    ghost use Rattle.std.specs.Prelude.{List};

    ghost Value = { List T };

    ghost view = { λ r. r.items.items };
}

/// A module (Report, section 5.1).
#[derive(Drop)]
pub struct Module {
    pub header: Header,
    pub decls: Row<Decl>,
}

/// The part of a module before its declarations.
pub struct Header {
    /// The module's name: its whole text, with dots, and no qualifier.
    pub name: Name,
    /// The export list, or `None` if there is none.
    pub exports: Option<Row<Export>>,
    pub imports: Row<Import>,
}

impl Drop for Header {
    fn drop(self) {
        let Header {
            name: _name,
            exports: _exports,
            imports: _imports,
        } = self;
    }
}

/// An item of an export list (Report, section 5.2).
#[derive(Drop)]
pub enum Export {
    /// A variable.
    Var(Name),
    /// A type, with some of its constructors.
    Con(Name, SubItems),
    /// `module` and a name.
    Whole(Name),
}

/// The constructors that are listed after a type.
#[derive(Drop)]
pub enum SubItems {
    /// No list.
    None,
    /// `(..)`
    All,
    /// A list, which may be empty: `()`.
    Some(Row<Name>),
}

/// An import declaration (Report, section 5.3).
#[derive(Drop)]
pub struct Import {
    /// Whether `qualified` is before the name.
    pub qualified: bool,
    /// The name of the imported module.
    pub name: Name,
    /// The name after `as`.
    pub alias: Option<Name>,
    pub list: ImportList,
}

/// The exports that are imported (Report, section 5.3.1).
#[derive(Drop)]
pub enum ImportList {
    /// All of them, because there is no list.
    Every,
    /// Only these.
    Only(Row<ImportItem>),
    /// All except these.
    Hiding(Row<ImportItem>),
}

/// An item of an import list. After `hiding` a `Con` may be a constructor too.
#[derive(Drop)]
pub enum ImportItem {
    /// A variable.
    Var(Name),
    /// A type, with some of its constructors.
    Con(Name, SubItems),
}

impl Name {
    /// Returns the text without the qualifier.
    pub fn as_str(&self) -> &str
        ensures { result.now ≡ self.now.text }
    {
        self.text.as_str()
    }

    /// Returns the text without the qualifier. A copy of it shares its bytes.
    pub fn as_text(&self) -> &Text
        ensures { result.now ≡ self.now.text }
    {
        &self.text
    }

    /// Returns the same name at the same place. The copy shares the texts.
    ///
    /// # Errors
    ///
    /// If memory runs out.
    pub fn copy(&self) -> Result<Name, AllocError>
        ensures { IfOk result (λ copy. copy ≡ self.now) }
    {
        let qualifier = match &self.qualifier {
            None => None,
            Some(text) => Some(text.copy()?),
        };
        Ok(Name {
            qualifier,
            text: self.text.copy()?,
            place: self.place,
        })
    }
}

impl<T> Row<T> {
    /// Returns the elements in order.
    pub fn as_slice(&self) -> &[T]
        ensures { result.now ≡ self.now }
    {
        self.items.as_slice()
    }
}
