//! The diagnostics that are sent to a client.
ghost use Rattle.std.specs.Prelude.{◌≡◌, ◌<◌, ◌++◌, IfOk, IsTrue, List, None, OnOk, Some, false, length, map, option_map, slice_index_or, string_bytes};
ghost use Rattle.serde_json.specs.Data.{Data};
ghost use Rattle.serde_json.specs.View.{view};
ghost use Rattle.hm_lsp_server.specs.Second.{AreSecondAt, AreShownAt};
ghost use Rattle.hm_lsp_server.specs.Published.{AreCleared, AreTold, IsSentOf, IsTold, diagnostics_data, diagnostics_notice, shown_under};

use crate::second::{SecondCheck, said_by};
use hm_lsp_positions::Encoding;
use hm_lsp_session::notice;
use hm_lsp_sources::Source;
use hm_lsp_values::diagnostic_value;
use hm_service::{Checked, Diagnostic, HeldSource, diagnostics_of};
use hm_service_stand_ins::{Second, missed_at};
use serde_json::{Value, json};
use std::alloc::{AllocError, Global};

/// What diagnostics are sent of: the sources of a client with the texts that are held for them, a check of these, a second one if there is one, and
/// what columns count.
#[derive(Clone, Copy)]
pub(crate) struct Telling<'a> {
    pub alloc: Global,
    pub encoding: Encoding,
    pub sources: &'a [Source],
    pub held: &'a [HeldSource],
    pub checked: &'a Checked,
    pub second: Option<&'a SecondCheck>,
}

/// Returns the diagnostics of the second check that are shown at a source.
fn second_at<'a>(telling: &Telling<'a>, number: usize) -> Result<Vec<&'a Diagnostic>, AllocError>
    ensures { IfOk result (λ found. AreSecondAt telling.now.held.now telling.now.checked.now (option_map (λ s. s.now) telling.now.second) number (map (λ d. d.now) found.items)) }
{
    let Some(second) = telling.second else {
        return Ok(Vec::new(telling.alloc));
    };
    let said = said_by(telling.checked);
    let other = Second {
        set: second.set.as_slice(),
        told: second.checked.told.diagnostics.as_slice(),
    };
    Ok(missed_at(telling.alloc, &said, telling.held, &other, number)?)
}

/// Appends diagnostics, in order.
fn add_all<'a>(found: &mut Vec<&'a Diagnostic>, more: &[&'a Diagnostic]) -> Result<(), AllocError>
    ensures { OnOk result (found.new.items ≡ found.old.items ++ more.now) }
{
    'more: for diagnostic in more {
        found.push(*diagnostic)?;
    }
    Ok(())
}

/// Returns the diagnostics that are shown at a source: those of the first check, and after them those of the second.
fn shown_at<'a>(telling: &Telling<'a>, number: usize) -> Result<Vec<&'a Diagnostic>, AllocError>
    ensures { IfOk result (λ found. AreShownAt telling.now.held.now telling.now.checked.now (option_map (λ s. s.now) telling.now.second) number (map (λ d. d.now) found.items)) }
{
    let mut found = diagnostics_of(telling.alloc, telling.held, telling.checked, number)?;
    let more = second_at(telling, number)?;
    add_all(&mut found, more.as_slice())?;
    Ok(found)
}

/// Returns diagnostics as an array.
fn diagnostic_values(telling: &Telling<'_>, found: &[&Diagnostic]) -> Result<Value, AllocError>
    ensures { IfOk result (λ value. view value ≡ diagnostics_data telling.now.encoding (map (λ d. d.now) found.now)) }
{
    let mut values = Vec::new(telling.alloc);
    'diagnostics: for diagnostic in found {
        values.push(diagnostic_value(telling.alloc, telling.encoding, *diagnostic)?)?;
    }
    Ok(Value::Array(values))
}

/// Returns the notification with the diagnostics of the source with this URI.
fn notice_of(telling: &Telling<'_>, uri: &str, found: &[&Diagnostic]) -> Result<Value, AllocError>
    ensures { IfOk result (λ made. view made ≡ diagnostics_notice telling.now.encoding uri.now (map (λ d. d.now) found.now)) }
{
    let values = diagnostic_values(telling, found)?;
    let diagnostics = &values;
    let params = json!(in telling.alloc; {"diagnostics": diagnostics, "uri": uri})?;
    notice(telling.alloc, "textDocument/publishDiagnostics", params)
}

/// Returns whether the client shows diagnostics of a source under this URI.
fn is_shown(shown: Option<&str>, uri: &str) -> bool
    ensures yes { IsTrue result → option_map (λ u. u.now) shown.entry ≡ Some uri.now }
    ensures no { result ≡ false → ¬ (option_map (λ u. u.now) shown.entry ≡ Some uri.now) }
{
    match shown {
        None => false,
        Some(old) => old == uri,
    }
}

/// Takes back the diagnostics of a source that the client shows under another URI than this one.
fn clear(
    telling: &Telling<'_>,
    shown: Option<&str>,
    uri: &str,
    sent: &mut Vec<Value>,
) -> Result<(), AllocError>
    ensures { OnOk result ((first : List Data) × (map view sent.new.items ≡ map view sent.old.items ++ first)
        × AreCleared telling.now.encoding (option_map (λ u. u.now) shown.entry) uri.now first) }
{
    let Some(old) = shown else {
        return Ok(());
    };
    if old == uri {
        return Ok(());
    }
    sent.push(notice_of(telling, old, &[])?)?;
    Ok(())
}

/// Returns the URI under which the client shows these diagnostics, if there are some.
fn shown_under(
    alloc: Global,
    uri: &str,
    found: &[&Diagnostic],
) -> Result<Option<String>, AllocError>
    ensures { IfOk result (λ shows. option_map string_bytes shows ≡ shown_under uri.now (map (λ d. d.now) found.now)) }
{
    if found.is_empty() {
        return Ok(None);
    }
    Ok(Some(String::from_str(alloc, uri)?))
}

/// Sends the diagnostics of a source with this URI, unless it has none and the client shows none under the URI. Returns the URI under which the client
/// shows some then.
fn send_one(
    telling: &Telling<'_>,
    number: usize,
    uri: &str,
    shown: Option<&str>,
    sent: &mut Vec<Value>,
) -> Result<Option<String>, AllocError>
    ensures { IfOk result (λ shows. (last : List Data) × (map view sent.new.items ≡ map view sent.old.items ++ last)
        × IsSentOf telling.now.encoding telling.now.held.now telling.now.checked.now (option_map (λ s. s.now) telling.now.second) (option_map (λ u. u.now) shown.entry) number uri.now (option_map string_bytes shows) last) }
{
    let found = shown_at(telling, number)?;
    let found = found.as_slice();
    if found.is_empty() && !is_shown(shown, uri) {
        return Ok(None);
    }
    sent.push(notice_of(telling, uri, found)?)?;
    Ok(shown_under(telling.alloc, uri, found)?)
}

/// Sends what is to be shown of a source, by the URI under which the client shows diagnostics of it. Returns the one under which it shows some then.
fn tell_one(
    telling: &Telling<'_>,
    number: usize,
    shown: Option<&str>,
    sent: &mut Vec<Value>,
) -> Result<Option<String>, AllocError>
    requires { number < length telling.now.sources.now }
    ensures { IfOk result (λ shows. (last : List Data) × (map view sent.new.items ≡ map view sent.old.items ++ last)
        × IsTold telling.now.encoding telling.now.sources.now telling.now.held.now telling.now.checked.now (option_map (λ s. s.now) telling.now.second) (option_map (λ u. u.now) shown.entry) number (option_map string_bytes shows) last) }
{
    let uri = telling.sources[number].uri.as_str();
    clear(telling, shown, uri, sent)?;
    Ok(send_one(telling, number, uri, shown, sent)?)
}

/// Returns the URI under which the client shows diagnostics of a source, if it shows some.
fn shown_uri(shown: &[Option<String>], number: usize) -> Option<&str>
    ensures { option_map (λ u. u.now) result ≡ slice_index_or (map (option_map string_bytes) shown.now) number None }
{
    let Some(uri) = shown.get(number) else {
        return None;
    };
    match uri {
        Some(uri) => Some(uri.as_str()),
        None => None,
    }
}

/// Sends the diagnostics of all sources, in order. Returns under which URI the client then shows some of each.
pub(crate) fn tell(
    telling: &Telling<'_>,
    shown: &[Option<String>],
    sent: &mut Vec<Value>,
) -> Result<Vec<Option<String>>, AllocError>
    ensures { IfOk result (λ shows. (new : List Data) × (map view sent.new.items ≡ map view sent.old.items ++ new)
        × AreTold (λ n. IsTold telling.now.encoding telling.now.sources.now telling.now.held.now telling.now.checked.now (option_map (λ s. s.now) telling.now.second) (slice_index_or (map (option_map string_bytes) shown.now) n None) n) (length telling.now.sources.now)
        (map (option_map string_bytes) shows.items) new) }
{
    let mut shows = Vec::new(telling.alloc);
    'sources: for number in 0..telling.sources.len() {
        let uri = tell_one(telling, number, shown_uri(shown, number), sent)?;
        shows.push(uri)?;
    }
    Ok(shows)
}
