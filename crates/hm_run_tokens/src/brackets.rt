//! Whether the brackets of a text are closed.
ghost use Rattle.std.specs.Prelude.{◌≡◌, ◌+◌, ◌<◌, ◌≤◌, ◌^◌, ◌∷◌, [], true};
ghost use Rattle.hm_lex.specs.Cut.{is_closing, is_opening, text_depth};
ghost use Rattle.hm_lex.specs.Faults.{AreTokensOf};
ghost use Rattle.hm_lex.specs.Texts.{LiesIn};
ghost use Rattle.hm_run_tokens.specs.Depths.{token_step};
ghost use Rattle.hm_run_tokens.specs.Parts.{IsClosed};

use hm_lex::Token;
use hm_lex::laws::token_texts;

/// Returns whether a byte opens a bracket.
#[tactic(auto, unfolding(hm_lex::specs::Cut::is_opening))]
fn opens(byte: u8) -> bool
    ensures { result ≡ is_opening (byte ∷ []) }
{
    matches!(byte, b'(' | b'[' | b'{')
}

/// Returns whether a byte closes a bracket.
#[tactic(auto, unfolding(hm_lex::specs::Cut::is_closing))]
fn closes(byte: u8) -> bool
    ensures { result ≡ is_closing (byte ∷ []) }
{
    matches!(byte, b')' | b']' | b'}')
}

/// Returns the depth of brackets after a text of one byte.
fn depth_after(depth: usize, byte: u8) -> usize
    requires { depth + 1 < 2 ^ 64 }
    ensures { result ≡ text_depth depth (byte ∷ []) }
{
    if opens(byte) {
        depth + 1
    } else if closes(byte) {
        depth.saturating_sub(1)
    } else {
        depth
    }
}

/// Returns the depth of brackets after a token of a text.
fn depth_past(depth: usize, text: &[u8], token: Token) -> usize
    requires lies { LiesIn text.now token }
    requires room { depth + 1 < 2 ^ 64 }
    ensures depth { result ≡ token_step text.now depth token }
    ensures low { result ≤ depth + 1 }
{
    if token.end - token.start != 1 {
        return depth;
    }
    depth_after(depth, text[token.start as usize])
}

/// Returns whether each bracket that is opened in a text is closed in it.
pub(crate) fn is_closed(text: &[u8], tokens: &[Token]) -> bool
    requires { AreTokensOf text.now tokens.now }
    ensures { result ≡ true → IsClosed text.now }
{
    token_texts();
    let mut depth: usize = 0;
    'tokens: for number in 0..tokens.len() {
        depth = depth_past(depth, text, tokens[number]);
    }
    depth == 0
}
