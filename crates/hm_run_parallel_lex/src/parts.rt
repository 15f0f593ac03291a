//! Parts of a source.

use hm_run_tokens::PartTokens;
use std::thread::Promise;

/// A part of a source.
#[derive(Clone, Copy)]
pub(crate) struct Part<'a> {
    /// The bytes of the source before the part.
    pub before: &'a [u8],
    pub text: &'a [u8],
}

/// A source from a byte on.
#[derive(Clone, Copy)]
pub(crate) struct Rest<'a> {
    pub source: &'a [u8],
    pub from: usize,
}

/// What a thread promises about the tokens of a part.
impl<'a> Promise<Option<PartTokens>> for Part<'a> {
    ghost use Rattle.std.specs.Prelude.{◌≡◌, IfSome, true};
    ghost use Rattle.hm_run_tokens.specs.Parts.{AreTokensAfter, IsClosed};

    ghost kept_by = { λ p r. IfSome r (λ found. AreTokensAfter p.before.now p.text.now found.tokens.items × (found.is_closed ≡ true → IsClosed p.text.now)) };
}
