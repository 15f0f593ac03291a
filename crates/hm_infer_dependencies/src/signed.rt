//! Finds the variables of a list that have signatures.

ghost use Rattle.std.specs.Prelude.{◌≡◌, ℕ, List, ◌||◌, IfOk, OnOk};
ghost use Rattle.hm_syntax.specs.Lists.{declarations};
ghost use Rattle.hm_names.specs.Syntax.{is_signed_among};
ghost use Rattle.hm_infer_dependencies.specs.Nodes.{has_text, is_signed, AreSigned};
ghost use Rattle.hm_syntax.specs.Trees.{more_declarations, no_declarations};

use hm_syntax::{Decl, DeclKind, Name};
use indexmap::IndexSet;
use std::alloc::{AllocError, Global};

/// Adds the texts of names.
fn add_texts<'a>(texts: &mut IndexSet<&'a str>, names: &'a [Name]) -> Result<(), AllocError>
    ensures { OnOk result ((x : List ℕ) → has_text texts.new x ≡ (is_signed_among x names.now || has_text texts.old x)) }
{
    for place in 0..names.len() {
        texts.insert(names[place].as_str())?;
    }
    Ok(())
}

/// Adds the texts of a signature's names, if the declaration is one.
fn add_signature<'a>(texts: &mut IndexSet<&'a str>, decl: &'a Decl) -> Result<(), AllocError>
    ensures { OnOk result ((x : List ℕ) → has_text texts.new x ≡ (is_signed (more_declarations decl.now no_declarations) x || has_text texts.old x)) }
{
    match &decl.kind {
        DeclKind::Signature { names, ty: _ } => Ok(add_texts(texts, names)?),
        _ => Ok(()),
    }
}

/// Returns the texts of the variables with signatures in a list.
pub fn signed_texts<'a>(alloc: Global, decls: &'a [Decl]) -> Result<IndexSet<&'a str>, AllocError>
    ensures { IfOk result (AreSigned (declarations decls.now)) }
{
    let mut texts = IndexSet::new(alloc);
    for place in 0..decls.len() {
        add_signature(&mut texts, &decls[place])?;
    }
    Ok(texts)
}
