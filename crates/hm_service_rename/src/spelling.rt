//! How names are spelled.
ghost use Rattle.std.specs.Prelude.{◌≡◌, IfOk, IsTrue, false, length};
ghost use Rattle.hm_service_rename.specs.Spelling.{IsName, IsNameToken, IsOneName};

use hm_lex::{Kind, LexFault, Token, lex};
use std::alloc::{AllocError, Global};

/// Returns whether a token is a name without a qualifier, which is the whole of a text of so many bytes.
fn is_name_token(token: Token, size: usize) -> bool
    ensures yes { IsTrue result → IsNameToken size token }
    ensures no { result ≡ false → ¬ (IsNameToken size token) }
{
    if token.start != 0 {
        return false;
    }
    if token.end as usize != size {
        return false;
    }
    if token.kind == Kind::VarId {
        return true;
    }
    token.kind == Kind::ConId
}

/// Returns whether tokens of a text of so many bytes are one name without a qualifier, which is the whole text.
fn is_one_name(tokens: &[Token], size: usize) -> bool
    ensures yes { IsTrue result → IsOneName size tokens.now }
    ensures no { result ≡ false → ¬ (IsOneName size tokens.now) }
{
    if tokens.len() != 1 {
        return false;
    }
    is_name_token(tokens[0], size)
}

/// Returns whether a text is a name without a qualifier (Haskell 98 Report, section 2.4).
pub(crate) fn is_name(alloc: Global, text: &str) -> Result<bool, AllocError>
    ensures yes { IfOk result (λ is. IsTrue is → IsName text.now) }
    ensures no { IfOk result (λ is. is ≡ false → ¬ (IsName text.now)) }
{
    let bytes = text.as_bytes();
    let tokens = match lex(alloc, bytes) {
        Ok(tokens) => tokens,
        Err(LexFault::Memory) => return Err(AllocError),
        Err(_fault) => return Ok(false),
    };
    Ok(is_one_name(tokens.as_slice(), bytes.len()))
}
