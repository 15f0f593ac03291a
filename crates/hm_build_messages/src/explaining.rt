//! The messages of a build. In the order of the report, each faulty module has one for each of its faults. After them, in the same order, each
//! skipped module has a note for each import because of which it is skipped. A reader is shown the first few.
ghost use Rattle.std.specs.Prelude.{Bool, ◌≡◌, ◌≤◌, ◌<◌, ◌∷◌, ◌++◌, ◌-◌, ◌^◌, [], All, Contains, IfOk, IfSome, OnOk, cond, false, filter, length, map, min, option_to_list, slice_index_or, true};
ghost use Rattle.std.specs.Arc.{arc_value};
ghost use Rattle.hm_messages.specs.Messages.{AreEach};
ghost use Rattle.hm_messages.specs.Pages.{files_in, texts_in};
ghost use Rattle.hm_run_sources.specs.Origins.{HaveOrigins};
ghost use Rattle.hm_verdicts.specs.Sets.{IsLawfulSet, no_module};
ghost use Rattle.hm_verdicts.specs.Reports.{is_skipped, tally};
ghost use Rattle.hm_syntax.specs.declared.ast.Import.{Import as ImportTree};
ghost use Rattle.hm_build_messages.specs.Explanations.{AreBlamesStated, AreErrorsStated, AreInTurn, AreNumbered, IsBlameMessage, IsBlamedBy, AreSkipsStated, IsSkippedStated, IsSetStated, IsStatedBy, blamed_of, fault_count, named_of, noted_of as noted_bytes, skipped_among};
ghost use Rattle.hm_store.specs.Settlements.{settlement as build_settlement};
ghost use Rattle.hm_build_reports.specs.ReportBlocks.{all_blamed, blamed};
ghost use Rattle.hm_build_reports.specs.Settling.{module_set, status_of as settlement, statuses_of};

use crate::faulty::Allowance;
use crate::hidden::all_messages;
use crate::sources::source_of;
use crate::view::{BuildView, Faulty};
use hm_build_reports::Settled;
use hm_lex::Place;
use hm_messages::{MessageFormat, Page, Pages, Topic, count_text, further_text, message};
use hm_syntax::{Import, Module};
use std::alloc::{AllocError, Global};
use std::sync::Arc;

/// How many skipped modules, and how many imports of each, have notes for a reader.
const MOST_NOTED: usize = 8;

// Why: docs/DECISIONS.md, "Many skipped modules".
/// Returns how many of so many are shown.
fn noted_of(format: MessageFormat, count: usize) -> usize
    ensures number { result ≡ noted_bytes format count }
    ensures within { result ≤ count }
{
    match format {
        MessageFormat::Plain | MessageFormat::Coloured => count.min(MOST_NOTED),
        MessageFormat::Json => count,
    }
}

/// An import because of which a module is skipped.
#[derive(Clone, Copy)]
struct Blame<'a> {
    name: &'a str,
    place: Place,
    is_faulty: bool,
}

/// Returns the first import with this name, from this one on.
fn import_from(imports: &[Import], from: usize, name: &str) -> Option<usize>
    ensures within { IfSome result (λ index. index < length imports.now) }
    ensures named { IfSome result (λ index. (d : ImportTree) → (slice_index_or imports.now index d).name.text ≡ name.now) }
{
    for index in from..imports.len() {
        if imports[index].name.as_str() == name {
            return Some(index);
        }
    }
    None
}

/// Returns whether an import has this name.
fn is_called(import: &Import, name: &str) -> bool
    ensures has { result ≡ true → import.now.name.text ≡ name.now }
    ensures hasnt { result ≡ false → ¬ (import.now.name.text ≡ name.now) }
{
    import.name.as_str() == name
}

/// Returns the first import with this name.
fn import_called(imports: &[Import], name: &str) -> usize
    requires { Contains (map (λ i. i.name.text) imports.now) name.now }
    ensures within { result < length imports.now }
    ensures named { (d : ImportTree) → (slice_index_or imports.now result d).name.text ≡ name.now }
{
    'calls: for index in 0..imports.len() {
        if is_called(&imports[index], name) {
            return index;
        }
    }
    unreachable!()
}

/// Returns the first import with this name from this one on, or else the first of all. A row of the plan is in the order of the imports, so the
/// first search finds each import of a row.
fn import_of(imports: &[Import], from: usize, name: &str) -> usize
    requires { Contains (map (λ i. i.name.text) imports.now) name.now }
    ensures within { result < length imports.now }
    ensures named { (d : ImportTree) → (slice_index_or imports.now result d).name.text ≡ name.now }
{
    match import_from(imports, from, name) {
        Some(index) => index,
        None => import_called(imports, name),
    }
}

/// Returns an import if the module that it names isn't published.
fn blame_of<'a>(name: &'a str, place: Place, settled: &Settled<'_>) -> Option<Blame<'a>>
    ensures names { map (λ b. b.name.now) (option_to_list result) ≡ blamed (settlement settled.now) name.entry.now }
    ensures name { IfSome result (λ b. b.name.now ≡ name.entry.now) }
    ensures place { IfSome result (λ b. b.place ≡ place) }
    ensures stated { IfSome result (λ b. IsStatedBy (settlement settled.now) name.entry.now (blamed_of b).subject) }
{
    match settled {
        Settled::Published(_) => None,
        Settled::Failed(_) => Some(Blame {
            name,
            place,
            is_faulty: true,
        }),
        Settled::Skipped => Some(Blame {
            name,
            place,
            is_faulty: false,
        }),
    }
}

/// Appends an import, if there is one.
fn add_blame<'a>(blames: &mut Vec<Blame<'a>>, blame: Option<Blame<'a>>) -> Result<(), AllocError>
    ensures { OnOk result (blames.new.items ≡ blames.old.items ++ option_to_list blame.entry) }
{
    match blame {
        Some(blame) => Ok(blames.push(blame)?),
        None => Ok(()),
    }
}

/// Returns the imports of a module that aren't published, in the order of its row in the plan.
fn blames_of<'a>(
    alloc: Global,
    modules: &'a [Arc<Module>],
    settled: &[Settled<'_>],
    row: &[usize],
    imports: &[Import],
) -> Result<Vec<Blame<'a>>, AllocError>
    requires modules { All (λ j. j < length modules.now) row.now }
    requires settled { All (λ j. j < length settled.now) row.now }
    requires imported { All (λ j. Contains (map (λ i. i.name.text) imports.now) (slice_index_or (map arc_value modules.now) j no_module).header.name.text) row.now }
    ensures names { IfOk result (λ blames. map (λ b. b.name.now) blames.items ≡ all_blamed (map arc_value modules.entry.now) (statuses_of settled.now) row.now) }
    ensures right { IfOk result (λ blames. All (λ b. IsBlamedBy (map arc_value modules.entry.now) (statuses_of settled.now) row.now imports.now (blamed_of b)) blames.items) }
{
    let mut blames = Vec::new(alloc);
    let mut from = 0usize;
    for number in row {
        let name = modules[*number].header.name.as_str();
        let index = import_of(imports, from, name);
        let import = &imports[index];
        let place = import.name.place;
        add_blame(&mut blames, blame_of(name, place, &settled[*number]))?;
        from = index;
    }
    Ok(blames)
}

/// Returns the message of an import because of which a module is skipped.
fn blame_message(
    alloc: Global,
    pages: &Pages<'_>,
    page: &Page<'_>,
    blame: &Blame<'_>,
) -> Result<Vec<u8>, AllocError>
    ensures { IfOk result (λ text. IsBlameMessage pages.now.format page.now.file.now page.now.lines (blamed_of blame.now) text.items) }
{
    if blame.is_faulty {
        let topic = Topic::Faulty(blame.name);
        Ok(message(alloc, pages.format, page, blame.place, &topic)?)
    } else {
        let topic = Topic::Skipped(blame.name);
        Ok(message(alloc, pages.format, page, blame.place, &topic)?)
    }
}

// Why: docs/DECISIONS.md, "Notes of skipped modules".
/// Returns the messages of the imports because of which a module is skipped.
fn blame_messages(
    alloc: Global,
    pages: &Pages<'_>,
    page: &Page<'_>,
    blames: &[Blame<'_>],
) -> Result<Vec<u8>, AllocError>
    ensures { IfOk result (λ text. AreEach (IsBlameMessage pages.now.format page.now.file.now page.now.lines) (map blamed_of blames.now) text.items) }
{
    let mut text = Vec::new(alloc);
    for blame in blames {
        let message = blame_message(alloc, pages, page, blame)?;
        text.extend_from_slice(message.as_slice())?;
    }
    Ok(text)
}

/// Returns the messages of a skipped module that this source spells.
fn skipped_messages(
    alloc: Global,
    view: &BuildView<'_, '_, '_>,
    number: usize,
    source: usize,
) -> Result<Vec<u8>, AllocError>
    requires lawful { IsLawfulSet (module_set view.now.modules.now view.now.plan.now) }
    requires len { length view.now.settled.now ≡ length view.now.modules.now }
    requires number { number < length view.now.modules.now }
    requires source { source < length view.now.pages.now.items.items }
    ensures { IfOk result (λ text. AreBlamesStated view.now.pages.now.format (files_in view.now.pages.now.items.items)
        (texts_in view.now.pages.now.items.items) source
        (module_set view.now.modules.now view.now.plan.now) (statuses_of view.now.settled.now) number text.items) }
{
    let imports = view.modules[number].header.imports.as_slice();
    let row = view.plan.imports(number);
    let mut blames = blames_of(alloc, view.modules, view.settled, row, imports)?;
    blames.sort_by_key(|blame| blame.name)?;
    let page = &view.pages.items[source];
    let shown = noted_of(view.pages.format, blames.len());
    let first = &blames.as_slice()[..shown];
    Ok(blame_messages(alloc, view.pages, page, first)?)
}

/// Returns the messages of a module if it is faulty.
fn errors_of(
    alloc: Global,
    view: &BuildView<'_, '_, '_>,
    number: usize,
    allowance: &mut Allowance,
) -> Result<Vec<u8>, AllocError>
    requires lawful { IsLawfulSet (module_set view.now.modules.now view.now.plan.now) }
    requires len { length view.now.settled.now ≡ length view.now.modules.now }
    requires number { number < length view.now.modules.now }
    requires origins { HaveOrigins (texts_in view.now.pages.now.items.items) (length view.now.modules.now) view.now.origins.now }
    requires settled { statuses_of view.now.settled.now ≡ build_settlement view.now.store.now }
    ensures { IfOk result (λ text. AreErrorsStated view.now.pages.now.format (files_in view.now.pages.now.items.items) (texts_in view.now.pages.now.items.items)
        (module_set view.now.modules.now view.now.plan.now) (statuses_of view.now.settled.now) number allowance.old.is_limit_stated
        allowance.new.is_limit_stated text.items) }
{
    match &view.settled[number] {
        Settled::Published(_) => Ok(Vec::new(alloc)),
        Settled::Failed(faults) => {
            let source = source_of(view, number);
            let faults = faults.as_slice();
            let faulty = Faulty {
                number,
                source,
                faults,
            };
            Ok(all_messages(alloc, view, faulty, allowance)?)
        }
        Settled::Skipped => Ok(Vec::new(alloc)),
    }
}

/// A module's name and its number.
#[derive(Clone, Copy)]
struct NumberedName<'a> {
    name: &'a str,
    number: usize,
}

/// Returns the names of the modules with their numbers, in order.
fn numbered<'a>(
    alloc: Global,
    modules: &'a [Arc<Module>],
) -> Result<Vec<NumberedName<'a>>, AllocError>
    ensures { IfOk result (λ rows. AreNumbered (map arc_value modules.entry.now) (map named_of rows.items)) }
{
    let mut rows = Vec::new(alloc);
    for number in 0..modules.len() {
        let name = modules[number].header.name.as_str();
        rows.push(NumberedName { name, number })?;
    }
    Ok(rows)
}

/// Returns the number of faults, at most 2^64 - 1.
fn errors_in(settled: &[Settled<'_>]) -> usize
    ensures { result ≡ min (fault_count (statuses_of settled.now) (length settled.now)) (2 ^ 64 - 1) }
{
    let mut errors = 0usize;
    for status in settled {
        if let Settled::Failed(faults) = status {
            errors = errors.saturating_add(faults.as_slice().len());
        }
    }
    errors
}

/// Appends the row of a module if it is skipped.
fn add_skipped<'a>(
    kept: &mut Vec<NumberedName<'a>>,
    row: NumberedName<'a>,
    settled: &Settled<'_>,
) -> Result<(), AllocError>
    ensures { OnOk result (kept.new.items ≡ kept.old.items ++ cond (is_skipped (settlement settled.now)) (row.entry ∷ []) []) }
{
    match settled {
        Settled::Published(_) => Ok(()),
        Settled::Failed(_) => Ok(()),
        Settled::Skipped => Ok(kept.push(row)?),
    }
}

/// Returns the rows of the skipped modules, in order.
fn skipped_rows<'a>(
    alloc: Global,
    settled: &[Settled<'_>],
    rows: &[NumberedName<'a>],
) -> Result<Vec<NumberedName<'a>>, AllocError>
    requires { All (λ r. r.number < length settled.now) rows.now }
    ensures { IfOk result (λ kept. kept.items ≡ filter (λ r. is_skipped (statuses_of settled.now r.number)) rows.entry.now) }
{
    let mut kept = Vec::new(alloc);
    for row in rows {
        add_skipped(&mut kept, *row, &settled[row.number])?;
    }
    Ok(kept)
}

/// Returns the messages of the faulty modules among these, in order.
fn error_messages(
    alloc: Global,
    view: &BuildView<'_, '_, '_>,
    rows: &[NumberedName<'_>],
) -> Result<Vec<u8>, AllocError>
    requires lawful { IsLawfulSet (module_set view.now.modules.now view.now.plan.now) }
    requires len { length view.now.settled.now ≡ length view.now.modules.now }
    requires origins { HaveOrigins (texts_in view.now.pages.now.items.items) (length view.now.modules.now) view.now.origins.now }
    requires settled { statuses_of view.now.settled.now ≡ build_settlement view.now.store.now }
    requires rows { All (λ r. r.number < length view.now.modules.now) rows.now }
    ensures { IfOk result (λ text. (limited : Bool) × AreInTurn (λ r before after m. AreErrorsStated view.now.pages.now.format
        (files_in view.now.pages.now.items.items) (texts_in view.now.pages.now.items.items) (module_set view.now.modules.now view.now.plan.now)
        (statuses_of view.now.settled.now) r.number before after m) rows.now false limited text.items) }
{
    let mut allowance = Allowance::of_run();
    let mut text = Vec::new(alloc);
    for row in rows {
        let messages = errors_of(alloc, view, row.number, &mut allowance)?;
        text.extend_from_slice(messages.as_slice())?;
    }
    Ok(text)
}

/// Returns the notes of these skipped modules, in order.
fn skipped_notes(
    alloc: Global,
    view: &BuildView<'_, '_, '_>,
    rows: &[NumberedName<'_>],
) -> Result<Vec<u8>, AllocError>
    requires lawful { IsLawfulSet (module_set view.now.modules.now view.now.plan.now) }
    requires len { length view.now.settled.now ≡ length view.now.modules.now }
    requires origins { HaveOrigins (texts_in view.now.pages.now.items.items) (length view.now.modules.now) view.now.origins.now }
    requires rows { All (λ r. r.number < length view.now.modules.now) rows.now }
    ensures { IfOk result (λ text. AreEach (λ r m. IsSkippedStated view.now.pages.now.format (files_in view.now.pages.now.items.items)
        (texts_in view.now.pages.now.items.items) (module_set view.now.modules.now view.now.plan.now) (statuses_of view.now.settled.now) r.number m)
        rows.now text.items) }
{
    let mut text = Vec::new(alloc);
    for row in rows {
        let source = source_of(view, row.number);
        let notes = skipped_messages(alloc, view, row.number, source)?;
        text.extend_from_slice(notes.as_slice())?;
    }
    Ok(text)
}

/// Returns the notes of the skipped modules among these, in order, and the line about those that have none.
fn all_notes(
    alloc: Global,
    view: &BuildView<'_, '_, '_>,
    rows: &[NumberedName<'_>],
) -> Result<Vec<u8>, AllocError>
    requires lawful { IsLawfulSet (module_set view.now.modules.now view.now.plan.now) }
    requires len { length view.now.settled.now ≡ length view.now.modules.now }
    requires origins { HaveOrigins (texts_in view.now.pages.now.items.items) (length view.now.modules.now) view.now.origins.now }
    requires rows { All (λ r. r.number < length view.now.modules.now) rows.now }
    ensures { IfOk result (λ text. AreSkipsStated view.now.pages.now.format (files_in view.now.pages.now.items.items) (texts_in view.now.pages.now.items.items)
        (module_set view.now.modules.now view.now.plan.now) (statuses_of view.now.settled.now)
        (skipped_among (statuses_of view.now.settled.now) (map named_of rows.now)) text.items) }
{
    let format = view.pages.format;
    let skips = skipped_rows(alloc, view.settled, rows)?;
    let shown = noted_of(format, skips.len());
    let first = &skips.as_slice()[..shown];
    let mut text = skipped_notes(alloc, view, first)?;
    let further = further_text(alloc, format, skips.len() - shown)?;
    text.extend_from_slice(further.as_bytes())?;
    Ok(text)
}

// Why: docs/DECISIONS.md, "Errors first".
/// Returns the messages of all faulty modules, in the order of their names, then the notes of the skipped modules in the same order, and the counts.
pub fn explanation(
    alloc: Global,
    view: &BuildView<'_, '_, '_>,
    skipped: usize,
) -> Result<Vec<u8>, AllocError>
    requires lawful { IsLawfulSet (module_set view.now.modules.now view.now.plan.now) }
    requires len { length view.now.settled.now ≡ length view.now.modules.now }
    requires origins { HaveOrigins (texts_in view.now.pages.now.items.items) (length view.now.modules.now) view.now.origins.now }
    requires settled { statuses_of view.now.settled.now ≡ build_settlement view.now.store.now }
    requires skipped { skipped ≡ tally is_skipped (statuses_of view.now.settled.now) (length view.now.settled.now) }
    ensures { IfOk result (λ text. IsSetStated view.now.pages.now.format (files_in view.now.pages.now.items.items) (texts_in view.now.pages.now.items.items)
        (module_set view.now.modules.now view.now.plan.now) (statuses_of view.now.settled.now) text.items) }
{
    let mut rows = numbered(alloc, view.modules)?;
    rows.sort_by_key(|row| row.name)?;
    let order = rows.as_slice();
    let mut text = error_messages(alloc, view, order)?;
    let notes = all_notes(alloc, view, order)?;
    text.extend_from_slice(notes.as_slice())?;
    let counts = count_text(alloc, view.pages.format, errors_in(view.settled), skipped)?;
    text.extend_from_slice(counts.as_bytes())?;
    Ok(text)
}
