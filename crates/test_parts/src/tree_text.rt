//! Trees of modules as texts, with the column of each name. Applications and patterns with arguments are in parentheses, a tuple or a list
//! comes after its word.
use hm_parse::parse;
use hm_syntax::{
    Alt, Constr, Decl, DeclKind, Expr, ExprKind, Import, ImportItem, ImportList, Literal,
    LiteralKind, Module, Name, Pat, PatKind, Rhs, SubItems, TypeExpr, TypeKind,
};
use std::alloc::{AllocError, Global};

/// A piece that is still to be written. Each of several types, patterns or expressions comes after a space.
#[derive(Clone, Copy, Drop)]
enum Piece<'a> {
    Text(&'static str),
    Column(u32),
    Name(&'a Name),
    Names(&'a [Name]),
    Literal(&'a Literal),
    Type(&'a TypeExpr),
    Types(&'a [TypeExpr]),
    Pat(&'a Pat),
    Pats(&'a [Pat]),
    Expr(&'a Expr),
    Exprs(&'a [Expr]),
    Alt(&'a Alt),
    Alts(&'a [Alt]),
    /// A right side, and the words around each of its expressions.
    Rhs(&'a Rhs, &'static str),
    Constr(&'a Constr),
    Constrs(&'a [Constr]),
    Decl(&'a Decl),
    Decls(&'a [Decl]),
    Import(&'a Import),
    Choice(&'a ImportList),
    Items(&'a [ImportItem]),
    Subs(&'a SubItems),
}

type Pieces<'a> = Vec<Piece<'a>>;

/// Splits words at their first hole.
fn cut(words: &'static str) -> (&'static str, &'static str) {
    match words.split_once('%') {
        Some((before, behind)) => (before, behind),
        None => (words, ""),
    }
}

/// Puts words with a piece in their hole before all other pieces.
fn one<'a>(
    pieces: &mut Pieces<'a>,
    words: &'static str,
    piece: Piece<'a>,
) -> Result<(), AllocError> {
    let (before, behind) = cut(words);
    pieces.push(Piece::Text(behind))?;
    pieces.push(piece)?;
    pieces.push(Piece::Text(before))?;
    Ok(())
}

/// Does the same with two pieces in two holes.
fn two<'a>(
    pieces: &mut Pieces<'a>,
    words: &'static str,
    first: Piece<'a>,
    second: Piece<'a>,
) -> Result<(), AllocError> {
    let (before, behind) = cut(words);
    one(pieces, behind, second)?;
    pieces.push(first)?;
    pieces.push(Piece::Text(before))?;
    Ok(())
}

/// Does the same with three pieces.
fn three<'a>(
    pieces: &mut Pieces<'a>,
    words: &'static str,
    first: Piece<'a>,
    second: Piece<'a>,
    third: Piece<'a>,
) -> Result<(), AllocError> {
    let (before, behind) = cut(words);
    two(pieces, behind, second, third)?;
    pieces.push(first)?;
    pieces.push(Piece::Text(before))?;
    Ok(())
}

/// Returns the words between an element of a list and the next, if there is one.
fn between(is_last: bool, words: &'static str) -> &'static str {
    if is_last { "%%" } else { words }
}

fn literal_text(literal: &Literal) -> &str {
    match &literal.kind {
        LiteralKind::Integer(text) | LiteralKind::Character(text) | LiteralKind::Text(text) => {
            text.as_str()
        }
    }
}

fn put_name(text: &mut String, name: &Name) -> Result<(), AllocError> {
    if let Some(qualifier) = &name.qualifier {
        write!(text, "{}.", qualifier.as_str())?;
    }
    write!(text, "{}@{}", name.as_str(), name.place.column)?;
    Ok(())
}

fn put_names(text: &mut String, names: &[Name]) -> Result<(), AllocError> {
    for name in names {
        text.push_str(" ")?;
        put_name(text, name)?;
    }
    Ok(())
}

fn types_pieces<'a>(pieces: &mut Pieces<'a>, types: &'a [TypeExpr]) -> Result<(), AllocError> {
    match types.split_first() {
        Some((first, rest)) => two(pieces, " %%", Piece::Type(first), Piece::Types(rest)),
        None => Ok(()),
    }
}

fn pats_pieces<'a>(pieces: &mut Pieces<'a>, pats: &'a [Pat]) -> Result<(), AllocError> {
    match pats.split_first() {
        Some((first, rest)) => two(pieces, " %%", Piece::Pat(first), Piece::Pats(rest)),
        None => Ok(()),
    }
}

fn exprs_pieces<'a>(pieces: &mut Pieces<'a>, exprs: &'a [Expr]) -> Result<(), AllocError> {
    match exprs.split_first() {
        Some((first, rest)) => two(pieces, " %%", Piece::Expr(first), Piece::Exprs(rest)),
        None => Ok(()),
    }
}

fn alts_pieces<'a>(pieces: &mut Pieces<'a>, alts: &'a [Alt]) -> Result<(), AllocError> {
    match alts.split_first() {
        Some((first, rest)) => {
            let words = between(rest.is_empty(), "% ; %");
            two(pieces, words, Piece::Alt(first), Piece::Alts(rest))
        }
        None => Ok(()),
    }
}

fn constrs_pieces<'a>(pieces: &mut Pieces<'a>, constrs: &'a [Constr]) -> Result<(), AllocError> {
    match constrs.split_first() {
        Some((first, rest)) => {
            let words = between(rest.is_empty(), "% | %");
            two(pieces, words, Piece::Constr(first), Piece::Constrs(rest))
        }
        None => Ok(()),
    }
}

fn decls_pieces<'a>(pieces: &mut Pieces<'a>, decls: &'a [Decl]) -> Result<(), AllocError> {
    match decls.split_first() {
        Some((first, rest)) => {
            let words = between(rest.is_empty(), "% ; %");
            two(pieces, words, Piece::Decl(first), Piece::Decls(rest))
        }
        None => Ok(()),
    }
}

fn items_pieces<'a>(pieces: &mut Pieces<'a>, items: &'a [ImportItem]) -> Result<(), AllocError> {
    let Some((first, rest)) = items.split_first() else {
        return Ok(());
    };
    let words = between(rest.is_empty(), "%, %");
    match first {
        ImportItem::Var(name) => two(pieces, words, Piece::Name(name), Piece::Items(rest)),
        ImportItem::Con(name, subs) => {
            two(pieces, words, Piece::Subs(subs), Piece::Items(rest))?;
            one(pieces, "%", Piece::Name(name))
        }
    }
}

/// Puts a name with its arguments, in parentheses if it has any.
fn named<'a>(
    pieces: &mut Pieces<'a>,
    is_alone: bool,
    name: &'a Name,
    arguments: Piece<'a>,
) -> Result<(), AllocError> {
    if is_alone {
        return one(pieces, "%", Piece::Name(name));
    }
    two(pieces, "(%%)", Piece::Name(name), arguments)
}

fn type_pieces<'a>(pieces: &mut Pieces<'a>, ty: &'a TypeExpr) -> Result<(), AllocError> {
    match &ty.kind {
        TypeKind::Var(name) => one(pieces, "%", Piece::Name(name)),
        TypeKind::Con(name, args) => named(pieces, args.is_empty(), name, Piece::Types(args)),
        TypeKind::Arrow(from, to) => two(pieces, "(% -> %)", Piece::Type(from), Piece::Type(to)),
        TypeKind::Tuple(types) => one(pieces, "(tuple%)", Piece::Types(types)),
        TypeKind::List(element) => one(pieces, "(list %)", Piece::Type(element)),
        TypeKind::Unit => one(pieces, "%", Piece::Text("()")),
    }
}

fn pat_pieces<'a>(pieces: &mut Pieces<'a>, pat: &'a Pat) -> Result<(), AllocError> {
    match &pat.kind {
        PatKind::Var(name) => one(pieces, "%", Piece::Name(name)),
        PatKind::Bound(name, pat) => two(pieces, "(% @ %)", Piece::Name(name), Piece::Pat(pat)),
        PatKind::Con(name, args) => named(pieces, args.is_empty(), name, Piece::Pats(args)),
        PatKind::Literal(literal) => one(pieces, "%", Piece::Literal(literal)),
        PatKind::Wild => one(pieces, "%", Piece::Text("_")),
        PatKind::Tuple(pats) => one(pieces, "(tuple%)", Piece::Pats(pats)),
        PatKind::List(pats) => one(pieces, "(list%)", Piece::Pats(pats)),
        PatKind::Lazy(pat) => one(pieces, "(~ %)", Piece::Pat(pat)),
    }
}

fn if_pieces<'a>(
    pieces: &mut Pieces<'a>,
    condition: &'a Expr,
    first: &'a Expr,
    second: &'a Expr,
) -> Result<(), AllocError> {
    three(
        pieces,
        "(if % then % else %)",
        Piece::Expr(condition),
        Piece::Expr(first),
        Piece::Expr(second),
    )
}

fn expr_pieces<'a>(pieces: &mut Pieces<'a>, expr: &'a Expr) -> Result<(), AllocError> {
    match &expr.kind {
        ExprKind::Var(name) | ExprKind::Con(name) => one(pieces, "%", Piece::Name(name)),
        ExprKind::Literal(literal) => one(pieces, "%", Piece::Literal(literal)),
        ExprKind::Apply(function, argument) => two(
            pieces,
            "(% %)",
            Piece::Expr(function),
            Piece::Expr(argument),
        ),
        ExprKind::Lambda(pats, body) => two(
            pieces,
            "(\\% -> %)",
            Piece::Pats(pats),
            Piece::Expr(body),
        ),
        ExprKind::Let(decls, body) => two(
            pieces,
            "(let { % } in %)",
            Piece::Decls(decls),
            Piece::Expr(body),
        ),
        ExprKind::If(condition, first, second) => if_pieces(pieces, condition, first, second),
        ExprKind::Case(of, alts) => two(
            pieces,
            "(case % of { % })",
            Piece::Expr(of),
            Piece::Alts(alts),
        ),
        ExprKind::Tuple(exprs) => one(pieces, "(tuple%)", Piece::Exprs(exprs)),
        ExprKind::List(exprs) => one(pieces, "(list%)", Piece::Exprs(exprs)),
        ExprKind::Typed(expr, ty) => two(pieces, "(% :: %)", Piece::Expr(expr), Piece::Type(ty)),
    }
}

/// Puts the declarations after `where`, if there are any.
fn local_pieces<'a>(pieces: &mut Pieces<'a>, local: &'a [Decl]) -> Result<(), AllocError> {
    if local.is_empty() {
        return Ok(());
    }
    one(pieces, " where { % }", Piece::Decls(local))
}

fn rhs_pieces<'a>(
    pieces: &mut Pieces<'a>,
    rhs: &'a Rhs,
    words: &'static str,
) -> Result<(), AllocError> {
    local_pieces(pieces, &rhs.local)?;
    for (guard, body) in rhs.parts.iter().rev() {
        one(pieces, words, Piece::Expr(body))?;
        if let Some(guard) = guard {
            one(pieces, " | %", Piece::Expr(guard))?;
        }
    }
    Ok(())
}

fn decl_pieces<'a>(pieces: &mut Pieces<'a>, decl: &'a Decl) -> Result<(), AllocError> {
    match &decl.kind {
        DeclKind::DataType {
            name,
            params,
            constrs,
        } => three(
            pieces,
            "data %% = %",
            Piece::Name(name),
            Piece::Names(params),
            Piece::Constrs(constrs),
        ),
        DeclKind::Newtype {
            name,
            params,
            constr,
        } => three(
            pieces,
            "newtype %% = %",
            Piece::Name(name),
            Piece::Names(params),
            Piece::Constr(constr),
        ),
        DeclKind::Synonym { name, params, ty } => three(
            pieces,
            "type %% = %",
            Piece::Name(name),
            Piece::Names(params),
            Piece::Type(ty),
        ),
        DeclKind::Signature { names, ty } => two(
            pieces,
            "signature% :: %",
            Piece::Names(names),
            Piece::Type(ty),
        ),
        DeclKind::Clause { name, pats, rhs } => three(
            pieces,
            "%%%",
            Piece::Name(name),
            Piece::Pats(pats),
            Piece::Rhs(rhs, " = %"),
        ),
        DeclKind::Pattern { place, pat, rhs } => three(
            pieces,
            "binding@% %%",
            Piece::Column(place.column),
            Piece::Pat(pat),
            Piece::Rhs(rhs, " = %"),
        ),
    }
}

fn choice_pieces<'a>(pieces: &mut Pieces<'a>, list: &'a ImportList) -> Result<(), AllocError> {
    match list {
        ImportList::Every => Ok(()),
        ImportList::Only(items) => one(pieces, " (%)", Piece::Items(&items.items)),
        ImportList::Hiding(items) => one(pieces, " hiding (%)", Piece::Items(&items.items)),
    }
}

fn import_pieces<'a>(pieces: &mut Pieces<'a>, import: &'a Import) -> Result<(), AllocError> {
    match &import.alias {
        Some(alias) => two(
            pieces,
            " as %%",
            Piece::Name(alias),
            Piece::Choice(&import.list),
        )?,
        None => one(pieces, "%", Piece::Choice(&import.list))?,
    }
    let words = if import.qualified {
        "import qualified %"
    } else {
        "import %"
    };
    one(pieces, words, Piece::Name(&import.name))
}

fn subs_pieces<'a>(pieces: &mut Pieces<'a>, subs: &'a SubItems) -> Result<(), AllocError> {
    match subs {
        SubItems::None => Ok(()),
        SubItems::All => one(pieces, "%", Piece::Text("(..)")),
        SubItems::Some(names) => one(pieces, "(% )", Piece::Names(&names.items)),
    }
}

/// Writes a piece, or puts its parts before all other pieces.
fn put<'a>(text: &mut String, pieces: &mut Pieces<'a>, piece: Piece<'a>) -> Result<(), AllocError> {
    match piece {
        Piece::Text(part) => text.push_str(part),
        Piece::Column(column) => write!(text, "{column}"),
        Piece::Name(name) => put_name(text, name),
        Piece::Names(names) => put_names(text, names),
        Piece::Literal(literal) => text.push_str(literal_text(literal)),
        Piece::Type(ty) => type_pieces(pieces, ty),
        Piece::Types(types) => types_pieces(pieces, types),
        Piece::Pat(pat) => pat_pieces(pieces, pat),
        Piece::Pats(pats) => pats_pieces(pieces, pats),
        Piece::Expr(expr) => expr_pieces(pieces, expr),
        Piece::Exprs(exprs) => exprs_pieces(pieces, exprs),
        Piece::Alt(alt) => two(
            pieces,
            "%%",
            Piece::Pat(&alt.pat),
            Piece::Rhs(&alt.rhs, " -> %"),
        ),
        Piece::Alts(alts) => alts_pieces(pieces, alts),
        Piece::Rhs(rhs, words) => rhs_pieces(pieces, rhs, words),
        Piece::Constr(constr) => two(
            pieces,
            "%%",
            Piece::Name(&constr.name),
            Piece::Types(&constr.args),
        ),
        Piece::Constrs(constrs) => constrs_pieces(pieces, constrs),
        Piece::Decl(decl) => decl_pieces(pieces, decl),
        Piece::Decls(decls) => decls_pieces(pieces, decls),
        Piece::Import(import) => import_pieces(pieces, import),
        Piece::Choice(list) => choice_pieces(pieces, list),
        Piece::Items(items) => items_pieces(pieces, items),
        Piece::Subs(subs) => subs_pieces(pieces, subs),
    }
}

/// Puts the pieces of a module's imports and declarations, the first one in front.
fn begin<'a>(pieces: &mut Pieces<'a>, module: &'a Module) -> Result<(), AllocError> {
    pieces.push(Piece::Decls(&module.decls.items))?;
    for import in module.header.imports.items.iter().rev() {
        pieces.push(Piece::Import(import))?;
    }
    Ok(())
}

/// Writes all pieces.
fn put_all(text: &mut String, pieces: &mut Pieces<'_>) -> Result<(), AllocError> {
    // No row has this many pieces.
    for _ in 0..1000 {
        let Some(piece) = pieces.pop() else {
            break;
        };
        put(text, pieces, piece)?;
    }
    Ok(())
}

/// Returns the text of a module's imports and declarations.
fn module_text(alloc: Global, module: &Module) -> Result<String, AllocError> {
    let mut pieces = Vec::new(alloc);
    begin(&mut pieces, module)?;
    let mut text = String::new(alloc);
    put_all(&mut text, &mut pieces)?;
    Ok(text)
}

/// Returns whether this is one module with this text.
fn is_one_module(alloc: Global, modules: &[Module], wanted: &str) -> Result<bool, AllocError> {
    if modules.len() != 1 {
        return Ok(false);
    }
    Ok(module_text(alloc, &modules[0])?.as_str() == wanted)
}

/// Returns whether the source has one module with this text.
pub(crate) fn is_spelled(alloc: Global, source: &[u8], wanted: &str) -> Result<bool, AllocError> {
    let Ok(tokens) = hm_lex::lex(alloc, source) else {
        return Ok(false);
    };
    let Ok(modules) = parse(alloc, source, &tokens) else {
        return Ok(false);
    };
    is_one_module(alloc, &modules, wanted)
}
