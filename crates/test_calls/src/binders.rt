//! Trees that no source spells, with qualified local binders. A qualified name is never local (Haskell 98 Report, section 5.5.1), so each of
//! these binders binds its bare name.
use hm_check::check_module;
use hm_lex::Place;
use hm_syntax::{
    Decl, DeclKind, Expr, ExprKind, Header, Literal, LiteralKind, Module, Name, Pat, PatKind, Rhs,
    Row,
};
use hm_texts::Text;
use std::alloc::{AllocError, Global};
use std::sync::Arc;
use std::test::Fail;

fn name(alloc: Global, qualifier: Option<&str>, text: &str) -> Result<Name, AllocError> {
    let qualifier = match qualifier {
        Some(module) => Some(Text::from_str(alloc, module)?),
        None => None,
    };
    Ok(Name {
        qualifier,
        text: Text::from_str(alloc, text)?,
        place: Place { line: 1, column: 1 },
    })
}

/// Returns the call `Prelude.not 'c'`, which has no type.
fn call(alloc: Global) -> Result<Expr, AllocError> {
    let function = Expr {
        kind: ExprKind::Var(name(alloc, Some("Prelude"), "not")?),
    };
    let literal = Literal {
        kind: LiteralKind::Character(Text::from_str(alloc, "'c'")?),
    };
    let argument = Expr {
        kind: ExprKind::Literal(literal),
    };
    Ok(Expr {
        kind: ExprKind::Apply(Box::new(alloc, function)?, Box::new(alloc, argument)?),
    })
}

/// Returns a module with the one clause `h = \B -> body`, where B is the binder.
fn module_with(alloc: Global, binder: Name, body: Expr) -> Result<Module, AllocError> {
    let mut pats = Vec::new(alloc);
    pats.push(Pat {
        kind: PatKind::Var(binder),
    })?;
    let lambda = Expr {
        kind: ExprKind::Lambda(pats, Box::new(alloc, body)?),
    };
    let mut parts = Vec::new(alloc);
    parts.push((None, lambda))?;
    let rhs = Rhs {
        parts,
        local: Vec::new(alloc),
    };
    let clause = DeclKind::Clause {
        name: name(alloc, None, "h")?,
        pats: Vec::new(alloc),
        rhs,
    };
    let mut decls = Vec::new(alloc);
    decls.push(Decl { kind: clause })?;
    Ok(Module {
        header: Header {
            name: name(alloc, None, "A")?,
            exports: None,
            imports: Row {
                items: Vec::new(alloc),
            },
        },
        decls: Row { items: decls },
    })
}

fn is_good(alloc: Global, module: Module) -> Result<bool, Fail> {
    let module = Arc::new(alloc, module)?;
    match check_module(alloc, &module, &[]) {
        Ok(outcome) => Ok(outcome.is_good()),
        Err(_) => Err(Fail::from("the call is refused")),
    }
}

#[test]
fn a_qualified_binder_captures_no_entity(rt: HostRuntime) -> Result<(), Fail> {
    for qualifier in [Some("Prelude"), None] {
        let binder = name(rt.alloc(), qualifier, "not")?;
        let module = module_with(rt.alloc(), binder, call(rt.alloc())?)?;
        assert!(rt; !is_good(rt.alloc(), module)?);
    }
    Ok(())
}

#[test]
fn a_qualified_binder_binds_its_bare_name(rt: HostRuntime) -> Result<(), Fail> {
    let body = Expr {
        kind: ExprKind::Var(name(rt.alloc(), None, "x")?),
    };
    let binder = name(rt.alloc(), Some("B"), "x")?;
    let module = module_with(rt.alloc(), binder, body)?;
    assert!(rt; is_good(rt.alloc(), module)?);
    Ok(())
}
