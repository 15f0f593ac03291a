//! Results of requests for the names that may be written at a place.
ghost use Rattle.std.specs.Prelude.{◌≡◌, ◌≤◌, IfOk, length};
ghost use Rattle.serde_json.specs.View.{view};
ghost use Rattle.hm_lex.specs.Bytes.{is_name_byte};
ghost use Rattle.hm_lsp_results.specs.Asked.{subject_of};
ghost use Rattle.hm_lsp_results.specs.Completions.{AreCompletionsIn, IsCompletionsResult, IsNameStart, is_of_name};

use crate::asking::Asked;
use hm_lsp_positions::{Position, offset_of, position_of};
use hm_lsp_values::completions_value;
use hm_service_completions::completions_of;
use serde_json::Value;
use std::alloc::AllocError;

/// Returns whether a byte may be in a name without a qualifier.
#[tactic(auto, unfolding(hm_lex::specs::Bytes::class_of))]
fn is_name_byte(byte: u8) -> bool
    ensures { result ≡ is_name_byte byte }
{
    matches!(byte, b'a'..=b'z' | b'A'..=b'Z' | b'0'..=b'9' | b'_' | b'\'')
}

/// Returns whether a byte may be in a name.
fn is_of_name(byte: u8) -> bool
    ensures { result ≡ is_of_name byte }
{
    is_name_byte(byte) || byte == b'.'
}

// Why: docs/DECISIONS.md, "What a completion replaces".
/// Returns where a name begins of which some is written before a place of a text.
#[tactic(auto, using(crate::proofs::NameStarts::one_more))]
fn name_start(text: &[u8], offset: usize) -> usize
    requires { offset ≤ length text.now }
    ensures { IsNameStart text.now offset result }
{
    let mut start = offset;
    'bytes: while start > 0 {
        if !is_of_name(text[start - 1]) {
            return start;
        }
        start -= 1;
    }
    start
}

/// Returns the names that may be written at a position of a text of a source.
fn completions_in(
    asked: &Asked<'_>,
    source: usize,
    text: &[u8],
    position: Position,
) -> Result<Value, AllocError>
    ensures { IfOk result (λ value. AreCompletionsIn (subject_of asked.now) source text.now position (view value)) }
{
    let offset = offset_of(asked.encoding, text, position);
    let start = name_start(text, offset);
    let first = position_of(asked.encoding, text, start);
    let last = position_of(asked.encoding, text, offset);
    let (prefix, line) = (&text[start..offset], last.line + 1);
    let names = completions_of(asked.alloc, asked.checked, source, line, prefix)?;
    Ok(completions_value(asked.alloc, first, last, names.as_slice())?)
}

/// Returns the names that may be written at a position of the text of a source as it is now, whether it can be read or not.
pub(crate) fn completions(
    asked: &Asked<'_>,
    source: usize,
    position: Position,
) -> Result<Value, AllocError>
    ensures { IfOk result (λ value. IsCompletionsResult (subject_of asked.now) source position (view value)) }
{
    let Some(held) = asked.held.get(source) else {
        return Ok(Value::Null);
    };
    let text = held.text.as_slice();
    Ok(completions_in(asked, source, text, position)?)
}
