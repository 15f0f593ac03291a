//! Finds the nodes of a list, from its last binding to its first.

ghost use Rattle.std.specs.Prelude.{◌≡◌, [], ◌∷◌, ◌++◌, ◌+◌, IfOk, OnOk, Err, Some, None, map, length};
ghost use Rattle.hm_syntax.specs.Lists.{declarations, patterns};
ghost use Rattle.hm_infer_dependencies.specs.References.{pattern_variables, patterns_variables};
ghost use Rattle.hm_infer_dependencies.specs.Nodes.{AreSigned, IsRepeated, new_nodes, list_nodes, owner_of, owners, has_text};
ghost use Rattle.hm_syntax.specs.Trees.{Declarations};

use crate::faults::GroupFault;
use crate::hiding::is_continued;
use crate::numbers::Numbers;
use hm_syntax::{Decl, DeclKind, Name, Pat, PatKind};
use indexmap::IndexSet;
use std::alloc::Global;

/// Returns whether the text of a name is in the set.
fn is_signed(signed: &IndexSet<&str>, name: &Name) -> bool
    ensures { result ≡ has_text signed.now name.now.text }
{
    signed.contains(name.as_str())
}

/// Adds the variables of a pattern.
#[cycle(variables)]
fn add_variables<'a>(numbers: &mut Numbers<'a>, pat: &'a Pat) -> Result<(), GroupFault>
    ensures added { OnOk result (numbers.new ≡ numbers.old ++ map Some (pattern_variables pat.now)) }
    ensures twice { result ≡ Err GroupFault.Repeated → IsRepeated (numbers.old ++ map Some (pattern_variables pat.now)) }
{
    match &pat.kind {
        PatKind::Var(name) => numbers.add(name)?,
        PatKind::Bound(name, pat) => {
            numbers.add(name)?;
            add_variables(numbers, pat)?;
        }
        PatKind::Con(_, pats) => add_all_variables(numbers, pats)?,
        PatKind::Literal(_) => {}
        PatKind::Wild => {}
        PatKind::Tuple(pats) => add_all_variables(numbers, pats)?,
        PatKind::List(pats) => add_all_variables(numbers, pats)?,
        PatKind::Lazy(pat) => add_variables(numbers, pat)?,
    }
    Ok(())
}

/// Adds the variables of patterns.
#[cycle(variables)]
fn add_all_variables<'a>(numbers: &mut Numbers<'a>, pats: &'a [Pat]) -> Result<(), GroupFault>
    ensures added { OnOk result (numbers.new ≡ numbers.old ++ map Some (patterns_variables (patterns pats.now))) }
    ensures twice { result ≡ Err GroupFault.Repeated → IsRepeated (numbers.old ++ map Some (patterns_variables (patterns pats.now))) }
{
    for pat in pats {
        add_variables(numbers, pat)?;
    }
    Ok(())
}

/// Adds the nodes of a declaration, and returns the node of its binding. `behind` is that of the next declaration.
fn add_declaration<'a>(
    numbers: &mut Numbers<'a>,
    signed: &IndexSet<&str>,
    decl: &'a Decl,
    rest: &[Decl],
    behind: Option<usize>,
) -> Result<Option<usize>, GroupFault>
    ensures nodes { OnOk result ((all : Declarations) → AreSigned all signed.now
        → numbers.new ≡ numbers.old ++ new_nodes all decl.now (declarations rest.now)) }
    ensures owner { IfOk result (λ o. (all : Declarations) → AreSigned all signed.now → numbers.old ≡ list_nodes all (declarations rest.now)
        → o ≡ owner_of all decl.now (declarations rest.now) behind) }
    ensures twice { result ≡ Err GroupFault.Repeated → (all : Declarations) → AreSigned all signed.now
        → IsRepeated (numbers.old ++ new_nodes all decl.now (declarations rest.now)) }
{
    match &decl.kind {
        DeclKind::Clause { name, pats, rhs: _ } => {
            if is_continued(name, pats, rest) {
                return Ok(behind);
            }
            if is_signed(signed, name) {
                return Ok(None);
            }
            let number = numbers.len();
            numbers.add(name)?;
            Ok(Some(number))
        }
        DeclKind::Pattern {
            place: _,
            pat,
            rhs: _,
        } => {
            add_variables(numbers, pat)?;
            let number = numbers.len();
            numbers.add_pattern()?;
            Ok(Some(number))
        }
        _ => Ok(None),
    }
}

/// The nodes of a list, and for each declaration, the last one first, the node of its binding.
#[derive(Drop)]
pub struct NodeList<'a> {
    pub numbers: Numbers<'a>,
    pub owners: Vec<Option<usize>>,
}

/// Returns the nodes of a list, or `Repeated` if a variable is bound twice: then the list has no typing.
pub fn node_list<'a>(
    alloc: Global,
    signed: &IndexSet<&str>,
    decls: &'a [Decl],
) -> Result<NodeList<'a>, GroupFault>
    ensures nodes { IfOk result (λ list. (all : Declarations) → AreSigned all signed.now → list.numbers ≡ list_nodes all (declarations decls.now)) }
    ensures owners { IfOk result (λ list. (all : Declarations) → AreSigned all signed.now → list.owners.items ≡ owners all (declarations decls.now)) }
    ensures twice { result ≡ Err GroupFault.Repeated → (all : Declarations) → AreSigned all signed.now → IsRepeated (list_nodes all (declarations decls.now)) }
{
    let mut numbers = Numbers::new(alloc);
    numbers.reserve(decls.len())?;
    let mut owners = Vec::with_capacity(alloc, decls.len())?;
    let mut owner = None;
    for behind in 0..decls.len() {
        let place = decls.len() - 1 - behind;
        owner = add_declaration(
            &mut numbers,
            signed,
            &decls[place],
            &decls[place + 1..],
            owner,
        )?;
        owners.push(owner)?;
    }
    Ok(NodeList { numbers, owners })
}
