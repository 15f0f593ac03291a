//! The variables of patterns.
ghost use Rattle.std.specs.Prelude.{◌≡◌, ◌+◌, ◌≤◌, ◌++◌, OnOk};
ghost use Rattle.hm_syntax.specs.Lists.{patterns};
ghost use Rattle.hm_syntax.specs.Sizes.{pattern_size, patterns_size};
ghost use Rattle.hm_names.specs.Variables.{pattern_variables, patterns_variables};
ghost use Rattle.hm_uses_symbols.specs.Pending.{lent, pending_size, pending_variables};

use hm_names::LentNames;
use hm_syntax::{Pat, PatKind};
use std::alloc::{AllocError, Global};

/// Puts patterns in front of those that are pending.
fn put_first<'a>(pending: &mut Vec<&'a Pat>, row: &'a [Pat]) -> Result<(), AllocError>
    ensures variables { OnOk result (pending_variables (lent pending.new.items) ≡ patterns_variables (patterns row.now) ++ pending_variables (lent pending.old.items)) }
    ensures size { OnOk result (pending_size (lent pending.new.items) ≡ patterns_size (patterns row.now) + pending_size (lent pending.old.items)) }
{
    'row: for behind in 0..row.len() {
        pending.push(&row[row.len() - 1 - behind])?;
    }
    Ok(())
}

/// Adds the variable that a pattern begins with, and puts its parts in front of the patterns that are pending.
fn open<'a>(
    names: &mut LentNames<'a>,
    pending: &mut Vec<&'a Pat>,
    pat: &'a Pat,
) -> Result<(), AllocError>
    ensures variables { OnOk result (names.new ++ pending_variables (lent pending.new.items) ≡ names.old ++ (pattern_variables pat.now ++ pending_variables (lent pending.old.items))) }
    ensures size { OnOk result (pending_size (lent pending.new.items) ≤ pattern_size pat.now + pending_size (lent pending.old.items)) }
{
    match &pat.kind {
        PatKind::Var(name) => Ok(names.push(name)?),
        PatKind::Bound(name, inner) => {
            names.push(name)?;
            pending.push(inner)?;
            Ok(())
        }
        PatKind::Con(_, args) => Ok(put_first(pending, args)?),
        PatKind::Literal(_) => Ok(()),
        PatKind::Wild => Ok(()),
        PatKind::Tuple(parts) => Ok(put_first(pending, parts)?),
        PatKind::List(elements) => Ok(put_first(pending, elements)?),
        PatKind::Lazy(inner) => {
            pending.push(inner)?;
            Ok(())
        }
    }
}

// There is no recursion, so that a caller needs no deep stack.
/// Adds the variables of a pattern, in order. The stack that it takes doesn't depend on how deep the pattern nests.
///
/// # Errors
///
/// If memory runs out.
pub(crate) fn add_variables<'a>(
    alloc: Global,
    names: &mut LentNames<'a>,
    pat: &'a Pat,
) -> Result<(), AllocError>
    ensures { OnOk result (names.new ≡ names.old ++ pattern_variables pat.now) }
{
    let mut pending = Vec::new(alloc);
    pending.push(pat)?;
    'patterns: while let Some(next) = pending.pop() {
        open(names, &mut pending, next)?;
    }
    Ok(())
}
