//! The text of a plan.
ghost use Rattle.std.specs.Prelude.{◌≡◌, ◌<◌, ◌++◌, All, IfOk, OnOk, length, map, string_bytes};
ghost use Rattle.hm_graph.specs.Outline.{outlines};
ghost use Rattle.hm_graph.specs.Imports.{name_at, IsImportPlan};
ghost use Rattle.hm_run_sources.specs.Plans.{AreBlocksOf, AreOrdered, IsPlanText, block_text};
ghost use Rattle.hm_run_sources.specs.Views.{block_of};

use hm_graph::Plan;
use hm_syntax::Header;
use std::alloc::{AllocError, Global};

/// The block of a module in the text of a plan.
#[derive(Drop)]
struct ModuleBlock<'a> {
    name: &'a str,
    imports: Vec<&'a str>,
}

/// Returns the names of the modules with these numbers, ordered.
fn ordered_names<'a>(
    alloc: Global,
    headers: &'a [Header],
    row: &[usize],
) -> Result<Vec<&'a str>, AllocError>
    requires { All (λ i. i < length headers.now) row.now }
    ensures { IfOk result (λ names. AreOrdered (map (name_at (outlines headers.entry.now)) row.now) (map (λ s. s.now) names.items)) }
{
    let mut names = Vec::new(alloc);
    for index in row {
        names.push(headers[*index].name.as_str())?;
    }
    names.sort()?;
    Ok(names)
}

/// Returns the blocks of the modules, in the modules' order.
fn blocks<'a>(
    alloc: Global,
    headers: &'a [Header],
    plan: &Plan,
) -> Result<Vec<ModuleBlock<'a>>, AllocError>
    requires { IsImportPlan (outlines headers.now) plan.now }
    ensures { IfOk result (λ blocks. AreBlocksOf (outlines headers.entry.now) plan.now (map block_of blocks.items)) }
{
    let mut blocks = Vec::new(alloc);
    for (m, header) in headers.iter().enumerate() {
        let imports = ordered_names(alloc, headers, plan.imports(m))?;
        let name = header.name.as_str();
        blocks.push(ModuleBlock { name, imports })?;
    }
    Ok(blocks)
}

/// Appends the text of a block.
fn add_block(text: &mut String, block: &ModuleBlock<'_>) -> Result<(), AllocError>
    ensures { OnOk result (string_bytes text.new ≡ string_bytes text.old ++ block_text (block_of block.now)) }
{
    let name = block.name;
    write!(text, "module {name}\n")?;
    for import in &block.imports {
        write!(text, "  import {import}\n")?;
    }
    Ok(())
}

/// Returns the text of a plan.
pub fn plan_text(alloc: Global, headers: &[Header], plan: &Plan) -> Result<String, AllocError>
    requires { IsImportPlan (outlines headers.now) plan.now }
    ensures { IfOk result (λ text. IsPlanText (outlines headers.now) plan.now (string_bytes text)) }
{
    let mut blocks = blocks(alloc, headers, plan)?;
    blocks.sort_by_key(|block| block.name)?;
    let mut text = String::new(alloc);
    for block in &blocks {
        add_block(&mut text, block)?;
    }
    let count = headers.len();
    write!(text, "{count} modules\n")?;
    Ok(text)
}
