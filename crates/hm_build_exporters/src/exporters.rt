//! Finds modules that export a name, and that a module doesn't import.
ghost use Rattle.std.specs.Prelude.{◌≡◌, ◌<◌, ◌++◌, All, IfOk, IfSome, OnOk, length, option_to_list};
ghost use Rattle.hm_build_exporters.specs.Having.{IsExporter};
ghost use Rattle.hm_build_exporters.specs.SettledSets.{IsComplete, set_of, status_in};

use crate::set::{SettledSet, interface_of};
use hm_messages_exporters::{Looks, Missing, is_exported};
use hm_types::Interface;
use std::alloc::{AllocError, Global};

/// How many modules that export a name are found.
const MOST_EXPORTERS: usize = 3;

/// A module that exports a name.
#[derive(Clone, Copy)]
pub struct Exporter<'m> {
    pub number: usize,
    pub interface: &'m Interface,
}

/// Returns a module if it exports a name, and a module doesn't import it.
fn exporter_at<'m>(
    set: &SettledSet<'_, 'm>,
    importer: usize,
    number: usize,
    missing: Missing<'_>,
    looks: &mut Looks,
) -> Option<Exporter<'m>>
    requires complete { IsComplete set.now importer }
    requires modules { number < length set.now.modules.now }
    requires settled { number < length set.now.settled.now }
    ensures { IfSome result (IsExporter (set_of set.now) (status_in set.now) importer missing.entry.space missing.entry.name.now) }
{
    let Some(interface) = interface_of(&set.settled[number]) else {
        return None;
    };
    if !is_exported(interface, missing.space, missing.name) {
        return None;
    }
    let row = set.plan.imports(importer);
    if !looks.take(row.len()) {
        return None;
    }
    if row.contains(&number) {
        return None;
    }
    Some(Exporter { number, interface })
}

/// Appends an exporter, if there is one.
fn add_exporter<'m>(
    found: &mut Vec<Exporter<'m>>,
    exporter: Option<Exporter<'m>>,
) -> Result<(), AllocError>
    ensures { OnOk result (found.new.items ≡ found.old.items ++ option_to_list exporter.entry) }
{
    match exporter {
        Some(exporter) => Ok(found.push(exporter)?),
        None => Ok(()),
    }
}

/// Returns the first good modules that export this name, and that a module doesn't import.
///
/// # Errors
///
/// If memory runs out.
pub fn exporters_of<'m>(
    alloc: Global,
    set: &SettledSet<'_, 'm>,
    importer: usize,
    missing: Missing<'_>,
    looks: &mut Looks,
) -> Result<Vec<Exporter<'m>>, AllocError>
    requires { IsComplete set.now importer }
    ensures { IfOk result (λ found. All (IsExporter (set_of set.now) (status_in set.now) importer missing.entry.space missing.entry.name.now) found.items) }
{
    let mut found = Vec::new(alloc);
    'modules: for number in 0..set.modules.len() {
        if found.len() >= MOST_EXPORTERS {
            return Ok(found);
        }
        if !looks.take(1) {
            return Ok(found);
        }
        let exporter = exporter_at(set, importer, number, missing, looks);
        add_exporter(&mut found, exporter)?;
    }
    Ok(found)
}
