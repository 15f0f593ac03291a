//! Names that occur twice in a list, and names that a list lacks.

ghost use Rattle.std.specs.Prelude.{◌≡◌, ◌++◌, ℕ, List, [], IfOk, OnOk, map};
ghost use Rattle.hm_names.specs.Faults.Lists.{firsts};
ghost use Rattle.hm_names.specs.Faults.Phases.{fault};
ghost use Rattle.hm_names.specs.Found.{repeated, outside};
ghost use Rattle.hm_names.specs.Texts.{is_text_among};
ghost use Rattle.hm_names.specs.Variables.{texts};

use hm_names::{Fault, Kind, LentNames, fault_at};
use hm_scope_tables::TextSet;
use hm_syntax::Name;
use std::alloc::{AllocError, Global};

// Why: docs/DECISIONS.md, "Few names".
/// The number of names of a list in which each name is compared with those before it. Most lists are
/// short, and filling a set costs more than comparing a few names.
const FEW: usize = 8;

/// Returns whether a name has this text.
fn is_among(names: &[&Name], text: &str) -> bool
    ensures { result ≡ is_text_among text.now (texts (map (λ n. n.now) names.now)) }
{
    'names: for name in names {
        if name.as_str() == text {
            return true;
        }
    }
    false
}

/// Adds a fault for each name that comes after another with the same text, by comparing all.
fn add_few_repeated(
    alloc: Global,
    faults: &mut Vec<Fault>,
    kind: Kind,
    row: &[&Name],
) -> Result<(), AllocError>
    ensures { OnOk result (faults.new.items ≡ faults.old.items ++ map (fault kind) (repeated [] (map (λ n. n.now) row.now))) }
{
    'row: for place in 0..row.len() {
        let name = row[place];
        if is_among(&row[..place], name.as_str()) {
            faults.push(fault_at(alloc, kind, name)?)?;
        }
    }
    Ok(())
}

/// Adds a fault for each name that comes after another with the same text.
pub fn add_repeated(
    alloc: Global,
    faults: &mut Vec<Fault>,
    kind: Kind,
    names: &LentNames<'_>,
) -> Result<(), AllocError>
    ensures { OnOk result (faults.new.items ≡ faults.old.items ++ map (fault kind) (repeated [] names.now)) }
{
    let row = names.as_slice();
    if row.len() < 2 {
        return Ok(());
    }
    if row.len() <= FEW {
        add_few_repeated(alloc, faults, kind, row)?;
        return Ok(());
    }
    let mut seen = TextSet::new(alloc);
    'row: for name in row {
        if !seen.insert(name.as_str())? {
            faults.push(fault_at(alloc, kind, name)?)?;
        }
    }
    Ok(())
}

/// Returns the texts of names.
fn texts_of<'a>(alloc: Global, names: &[&'a Name]) -> Result<TextSet<'a>, AllocError>
    ensures { IfOk result (λ set. (x : List ℕ) → is_text_among x set ≡ is_text_among x (texts (map (λ n. n.now) names.now))) }
{
    let mut set = TextSet::new(alloc);
    'names: for name in names {
        set.insert(name.as_str())?;
    }
    Ok(set)
}

/// Adds a fault for each name whose text isn't among these.
pub fn add_outside(
    alloc: Global,
    faults: &mut Vec<Fault>,
    kind: Kind,
    known: &LentNames<'_>,
    names: &LentNames<'_>,
) -> Result<(), AllocError>
    ensures { OnOk result (faults.new.items ≡ faults.old.items ++ map (fault kind) (outside (texts known.now) names.now)) }
{
    let row = names.as_slice();
    if row.is_empty() {
        return Ok(());
    }
    let set = texts_of(alloc, known.as_slice())?;
    'row: for name in row {
        if !set.contains(name.as_str()) {
            faults.push(fault_at(alloc, kind, name)?)?;
        }
    }
    Ok(())
}

/// Adds each name that is the first with its text, by comparing all.
fn add_few_firsts<'a>(out: &mut LentNames<'a>, row: &[&'a Name]) -> Result<(), AllocError>
    ensures { OnOk result (out.new ≡ out.old ++ firsts [] (map (λ n. n.now) row.now)) }
{
    'row: for place in 0..row.len() {
        let name = row[place];
        if !is_among(&row[..place], name.as_str()) {
            out.push(name)?;
        }
    }
    Ok(())
}

/// Adds each name that is the first with its text.
pub(crate) fn add_firsts<'a>(
    alloc: Global,
    out: &mut LentNames<'a>,
    names: &LentNames<'a>,
) -> Result<(), AllocError>
    ensures { OnOk result (out.new ≡ out.old ++ firsts [] names.now) }
{
    let row = names.as_slice();
    if row.len() <= FEW {
        add_few_firsts(out, row)?;
        return Ok(());
    }
    let mut seen = TextSet::new(alloc);
    'row: for name in row {
        if seen.insert(name.as_str())? {
            out.push(name)?;
        }
    }
    Ok(())
}
