//! Results of requests for the name that a rename is of.
ghost use Rattle.std.specs.Prelude.{◌≤◌, IfErr, IfOk, string_bytes};
ghost use Rattle.serde_json.specs.View.{view};
ghost use Rattle.hm_lsp_results.specs.Asked.{subject_of};
ghost use Rattle.hm_lsp_results.specs.Prepared.{IsNotRenamableAt, IsPreparedIn, IsPrepareValue};
ghost use Rattle.hm_lsp_results.specs.Renames.{IsFaultBy};
ghost use Rattle.hm_lsp_values.specs.Renames.{IsTargetValue};

use crate::asking::{Asked, read_text};
use crate::faults::{RequestFault, ServerFault};
use crate::referring::place_in;
use crate::renames::WORKERS;
use hm_lsp_positions::{Cursor, Position};
use hm_lsp_values::target_value;
use hm_service::Position as Place;
use hm_service_rename::{CheckedSet, Prepared, SourcePlace, Target, prepare_rename};
use serde_json::Value;
use std::alloc::AllocError;
use std::sync::Wait;
use std::thread::Threads;

/// Returns the name at a place, or why it can't be renamed.
fn prepared_at<T: Threads + Wait + Sync>(
    rt: &T,
    asked: &Asked<'_>,
    source: usize,
    place: &Place,
) -> Result<Prepared, ServerFault>
    requires { place.now.line ≤ 4294967295 }
    ensures { IfOk result (IsPreparedIn (subject_of asked.now) source place.now) }
{
    let set = CheckedSet {
        held: asked.held,
        checked: asked.checked,
        workers: WORKERS,
    };
    let spot = SourcePlace {
        source,
        line: place.line as u32,
        column: place.columns.bytes,
    };
    match prepare_rename(rt, asked.alloc, &set, &spot) {
        Ok(prepared) => Ok(prepared),
        Err(_) => Err(ServerFault),
    }
}

/// Returns a name with where it is written in a text.
fn target_in(asked: &Asked<'_>, text: &[u8], target: &Target) -> Result<Value, AllocError>
    ensures { IfOk result (λ value. IsTargetValue asked.now.encoding text.now (string_bytes target.now.name) target.now.reference (view value)) }
{
    let mut cursor = Cursor::new(asked.encoding, text);
    let name = target.name.as_str();
    target_value(asked.alloc, &mut cursor, name, &target.reference)
}

/// Returns the name at a position with its range, or null if the position is in no text that can be read.
///
/// # Errors
///
/// `Refused` if the checker refuses each rename of the name.
pub(crate) fn prepare<T: Threads + Wait + Sync>(
    rt: &T,
    asked: &Asked<'_>,
    source: usize,
    position: Position,
) -> Result<Value, RequestFault>
    ensures value { IfOk result (λ value. IsPrepareValue (subject_of asked.now) source position (view value)) }
    ensures refused { IfErr result (IsFaultBy (IsNotRenamableAt (subject_of asked.now) source position)) }
{
    let Some(text) = read_text(asked.held, source) else {
        return Ok(Value::Null);
    };
    let Some(place) = place_in(asked, source, position) else {
        return Ok(Value::Null);
    };
    match prepared_at(rt, asked, source, &place)? {
        Prepared::Refused(refusal) => Err(RequestFault::Refused(refusal)),
        Prepared::Renamable(target) => Ok(target_in(asked, text, &target)?),
    }
}
