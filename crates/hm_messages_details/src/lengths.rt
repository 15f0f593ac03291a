//! Finds how many patterns a clause has, and how many the first clause of its binding has.
ghost use Rattle.std.specs.Prelude.{◌≡◌, ◌++◌, Contains, None, IfOk, IfSome, OnOk, map};
ghost use Rattle.hm_syntax.specs.Lists.{declarations, patterns};
ghost use Rattle.hm_syntax.specs.Trees.{Declarations, more_declarations};
ghost use Rattle.hm_names.specs.Faults.Lists.{goes_on, opened};
ghost use Rattle.hm_messages_details.specs.Counts.{AreLengths, HasLengths, LaterClause, first_length, later_clauses};
ghost use Rattle.hm_messages_details.specs.Firsts.{IsAt};
ghost use Rattle.hm_messages_details.specs.Parts.{HasLengthsIn, later_of, part_of};

use crate::counts::Counts;
use crate::firsts::is_at;
use crate::parts::{ModulePart, parts_of};
use hm_names::Fault;
use hm_syntax::{Decl, DeclKind, Module, Name, Pat};
use std::alloc::{AllocError, Global};
use std::marker::Model;

/// The binding that the next clause may continue: its variable, and the number of patterns of its first clause.
#[derive(Drop)]
struct Begun<'a> {
    binding: Option<(&'a str, usize)>,
}

impl<'a> Model for Begun<'a> {
    ghost use Rattle.hm_names.specs.Faults.Lists.{OpenBinding};
    ghost use Rattle.hm_scope_resolve.specs.OpenBindings.{open_binding};

    ghost Value = { OpenBinding };

    ghost view = { λ b. open_binding b.binding };
}

impl<'a> Begun<'a> {
    /// Returns that no clause can continue a binding.
    fn none() -> Begun<'a>
        ensures { result ≡ None }
    {
        Begun { binding: None }
    }

    /// Returns the binding that a first clause begins.
    fn by(name: &'a Name, pats: &[Pat]) -> Begun<'a>
        ensures { result ≡ opened name.now (patterns pats.now) }
    {
        if pats.is_empty() {
            return Begun { binding: None };
        }
        Begun {
            binding: Some((name.as_str(), pats.len())),
        }
    }

    /// Returns whether a clause continues the binding.
    fn goes_on(&self, name: &Name, pats: &[Pat]) -> bool
        ensures { result ≡ goes_on self.now name.now (patterns pats.now) }
    {
        let Some((text, _)) = self.binding else {
            return false;
        };
        if text != name.as_str() {
            return false;
        }
        !pats.is_empty()
    }

    /// Returns the number of patterns of the first clause.
    fn first_length(&self) -> usize
        ensures { result ≡ first_length self.now }
    {
        let Some((_, count)) = self.binding else {
            return 0;
        };
        count
    }
}

/// A clause that continues a binding, its number of patterns, and that of the binding's first clause.
#[derive(Clone, Copy)]
struct Later<'a> {
    name: &'a Name,
    here: usize,
    first: usize,
}

/// Adds a clause that continues a binding, and returns the binding that the next clause may continue.
fn add_later<'a>(
    out: &mut Vec<Later<'a>>,
    begun: Begun<'a>,
    decl: &'a Decl,
) -> Result<Begun<'a>, AllocError>
    ensures { IfOk result (λ next. (ds : Declarations) → map later_of out.new.items ++ later_clauses next ds ≡ map later_of out.old.items
        ++ later_clauses begun.entry (more_declarations decl.now ds)) }
{
    match &decl.kind {
        DeclKind::DataType { .. } => Ok(Begun::none()),
        DeclKind::Newtype { .. } => Ok(Begun::none()),
        DeclKind::Synonym { .. } => Ok(Begun::none()),
        DeclKind::Signature { .. } => Ok(Begun::none()),
        DeclKind::Clause { name, pats, .. } => {
            if !begun.goes_on(name, pats) {
                return Ok(Begun::by(name, pats));
            }
            out.push(Later {
                name,
                here: pats.len(),
                first: begun.first_length(),
            })?;
            Ok(begun)
        }
        DeclKind::Pattern { .. } => Ok(Begun::none()),
    }
}

/// Returns the clauses that continue a binding of a list.
fn later_in<'a>(alloc: Global, decls: &'a [Decl]) -> Result<Vec<Later<'a>>, AllocError>
    ensures { IfOk result (λ found. map later_of found.items ≡ later_clauses None (declarations decls.now)) }
{
    let mut found = Vec::new(alloc);
    let mut begun = Begun::none();
    'decls: for decl in decls {
        begun = add_later(&mut found, begun, decl)?;
    }
    Ok(found)
}

/// Returns the numbers of patterns of one of these clauses, if a fault is at it.
fn counts_at(fault: &Fault, found: &[Later<'_>]) -> Option<Counts>
    ensures { IfSome result (λ c. (later : LaterClause) × Contains (map later_of found.now) later × IsAt fault.now later.name × (c.here ≡ later.here)
        × (c.right ≡ later.first)) }
{
    'found: for later in found {
        if is_at(fault, later.name) {
            return Some(Counts {
                here: later.here,
                right: later.first,
            });
        }
    }
    None
}

/// Returns the numbers of patterns of a clause of a list, if a fault is at it.
fn lengths_in_list(
    alloc: Global,
    fault: &Fault,
    decls: &[Decl],
) -> Result<Option<Counts>, AllocError>
    ensures { IfOk result (λ found. IfSome found (λ c. HasLengths fault.now c.here c.right (declarations decls.now))) }
{
    let found = later_in(alloc, decls)?;
    Ok(counts_at(fault, found.as_slice()))
}

/// Returns the numbers of patterns of a clause of a part, if a fault is at it.
fn lengths_in(
    alloc: Global,
    fault: &Fault,
    part: ModulePart<'_>,
) -> Result<Option<Counts>, AllocError>
    ensures { IfOk result (λ found. IfSome found (λ c. HasLengthsIn fault.now c.here c.right (part_of part.entry))) }
{
    let ModulePart::List(decls) = part else {
        return Ok(None);
    };
    Ok(lengths_in_list(alloc, fault, decls)?)
}

/// Returns the numbers of patterns of the clause at a fault and of the first clause of its binding, if they differ.
pub(crate) fn pattern_counts(
    alloc: Global,
    program: &Module,
    fault: &Fault,
) -> Result<Option<Counts>, AllocError>
    ensures { IfOk result (λ found. IfSome found (λ c. AreLengths program.now fault.now c.here c.right)) }
{
    let parts = parts_of(alloc, program)?;
    let row = parts.as_slice();
    'row: for part in row {
        match lengths_in(alloc, fault, *part)? {
            Some(counts) => {
                if counts.differ() {
                    return Ok(Some(counts));
                }
            }
            None => {}
        }
    }
    Ok(None)
}
