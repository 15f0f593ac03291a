//! The texts of tokens.
ghost use Rattle.std.specs.Prelude.{◌≡◌, ◌<◌, ◌≤◌, ◌-◌, length, ◌==◌, if◌then◌else◌, take, IfOk, slice_index};
ghost use Rattle.std.specs.Str.{IsUtf8};
ghost use Rattle.hm_lex.specs.Texts.{LiesIn, token_text};
ghost use Rattle.hm_parse_grammar.specs.Tokens.{last_len, name_in};

use hm_lex::{Place, Token};
use hm_syntax::Name;
use hm_texts::{Text, TextTable};
use std::alloc::{AllocError, Global};

/// Returns the text of a token.
pub fn text_of<'a>(source: &'a [u8], token: &Token) -> &'a [u8]
    requires { LiesIn source.now token.now }
    ensures { result.now ≡ token_text source.now token.now }
{
    &source[token.start as usize..token.end as usize]
}

/// Returns where the last part of a name begins: after its last dot.
#[tactic(auto, using(crate::proofs::Parts::start_is, crate::proofs::Parts::one_more))]
fn last_start(text: &[u8]) -> usize
    ensures start { result ≡ length text.now - last_len text.now }
    ensures within { result ≤ length text.now }
    ensures dot { 0 < result → slice_index text.now (result - 1) ≡ 46 }
{
    let mut start = text.len();
    while start > 0 && text[start - 1] != b'.' {
        start -= 1;
    }
    start
}

/// Returns the part before the last dot, if the last part begins here.
#[tactic(auto, using(crate::proofs::Parts::qualifier_text))]
fn qualifier<'a>(
    alloc: Global,
    texts: &mut TextTable<'a>,
    text: &'a [u8],
    start: usize,
) -> Result<Option<Text>, AllocError>
    requires text { IsUtf8 text.now }
    requires within { start ≤ length text.now }
    requires dot { 0 < start → slice_index text.now (start - 1) ≡ 46 }
    ensures { IfOk result (λ q. q ≡ (if start == 0 then None else Some (take (start - 1) text.now))) }
{
    if start == 0 {
        Ok(None)
    } else {
        Ok(Some(texts.text(alloc, &text[..start - 1])?))
    }
}

/// Returns the name with this text, at its place.
#[tactic(auto, using(crate::proofs::Parts::last_text, crate::proofs::Parts::rest_is))]
pub fn name_in<'a>(
    alloc: Global,
    texts: &mut TextTable<'a>,
    text: &'a [u8],
    place: Place,
) -> Result<Name, AllocError>
    requires { IsUtf8 text.now }
    ensures { IfOk result (λ name. name ≡ name_in text.now place) }
{
    let start = last_start(text);
    let qualifier = qualifier(alloc, texts, text, start)?;
    let last = texts.text(alloc, &text[start..])?;
    Ok(Name {
        qualifier,
        text: last,
        place,
    })
}
