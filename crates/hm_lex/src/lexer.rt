//! The loop over the items of a source.
ghost use Rattle.std.specs.Prelude.{◌≡◌, ◌≢◌, ◌+◌, ◌^◌, ◌<◌, ◌≤◌, ◌++◌, ℕ, List, length, All, IsTrue, OnOk, IfOk, IfErr, IfSome, IfNone, OnSome, Err};
ghost use Rattle.hm_lex.specs.Cut.{Piece, IsCut, tokens_of, place_after, shape_of, is_opening, text_depth};
ghost use Rattle.hm_lex.specs.Faults.{max_depth, max_source_len, AreTokensOf, IsRefusal};
ghost use Rattle.hm_lex.specs.Texts.{LiesIn};
ghost use Rattle.hm_lex.specs.Scan.{IsScanned, place_step, tokens_at, has_one_line};
ghost use Rattle.hm_lex.specs.Shapes.{HasShape};

use crate::byte_class::is_white;
use crate::item::Item;
use crate::next::{Next, next_item};
use crate::token::{Kind, LexFault, Place, Token};
use crate::words::{is_closing, is_opening};
use std::alloc::Global;

const MAX_SOURCE_LEN: usize = 1_048_576;

const MAX_DEPTH: usize = 200;

impl Place {
    /// Returns the place after one byte.
    fn past(self, byte: u8) -> Place
        requires line { self.line + 1 < 2 ^ 32 }
        requires column { self.column + 1 < 2 ^ 32 }
        ensures { result ≡ place_step self byte }
    {
        if byte == b'\n' {
            Place {
                line: self.line + 1,
                column: 1,
            }
        } else {
            Place {
                line: self.line,
                column: self.column + 1,
            }
        }
    }

    /// Returns the place after a text that begins here.
    fn after(self, text: &[u8]) -> Place
        requires line { self.line + length text.now < 2 ^ 32 }
        requires column { self.column + length text.now < 2 ^ 32 }
        ensures { (before : List ℕ) → self ≡ place_after before → result ≡ place_after (before ++ text.now) }
    {
        let mut place = self;
        for byte in text {
            place = place.past(*byte);
        }
        place
    }

    /// Returns the place after an item that begins here, with this text.
    fn behind(self, item: Item, text: &[u8]) -> Place
        requires shape { HasShape (shape_of item) text.now }
        requires line { self.line + length text.now < 2 ^ 32 }
        requires column { self.column + length text.now < 2 ^ 32 }
        ensures { (before : List ℕ) → self ≡ place_after before → result ≡ place_after (before ++ text.now) }
    {
        match item {
            Item::Lexeme(kind) if has_one_line(kind) => Place {
                line: self.line,
                column: self.column + text.len() as u32,
            },
            _ => self.after(text),
        }
    }
}

/// Returns whether no lexeme of this kind has a line end. False for some kinds that have none either.
fn has_one_line(kind: Kind) -> bool
    ensures { result ≡ has_one_line kind }
{
    matches!(
        kind,
        Kind::Word | Kind::VarId | Kind::ConId | Kind::Op | Kind::Special
    )
}

// Why: docs/DECISIONS.md, "Depth of brackets".
/// Returns the depth of brackets after a text, or `None` if it would be above the limit.
fn depth_after(depth: usize, text: &[u8]) -> Option<usize>
    requires { depth ≤ max_depth }
    ensures depth { IfSome result (λ after. after ≡ text_depth depth text.now) }
    ensures low { IfSome result (λ after. after ≤ max_depth) }
    ensures some { OnSome result (IsTrue (is_opening text.now) → depth ≢ max_depth) }
    ensures opening { IfNone result (IsTrue (is_opening text.now)) }
    ensures deep { IfNone result (depth ≡ max_depth) }
{
    if is_opening(text) {
        if depth == MAX_DEPTH {
            None
        } else {
            Some(depth + 1)
        }
    } else if is_closing(text) {
        Some(depth.saturating_sub(1))
    } else {
        Some(depth)
    }
}

/// Adds the token of an item, if it has one.
fn add_token(
    tokens: &mut Vec<Token>,
    item: Item,
    start: usize,
    len: usize,
    place: Place,
) -> Result<(), LexFault>
    requires { start + len < 2 ^ 32 }
    ensures ok { OnOk result (tokens.new.items ≡ tokens.old.items ++ tokens_at start place item len) }
    ensures err { IfErr result (λ fault. fault ≡ LexFault.Memory) }
{
    if let Item::Lexeme(kind) = item {
        let token = Token {
            kind,
            start: start as u32,
            end: (start + len) as u32,
            place,
        };
        tokens.push(token).map_err(|_| LexFault::Memory)?;
    }
    Ok(())
}

#[derive(Drop)]
struct Lexer<'a> {
    source: &'a [u8],
    start: usize,
    place: Place,
    depth: usize,
    tokens: Vec<Token>,
}

impl Lexer<'_> {
    /// Skips white space.
    fn pass_white(&mut self)
        requires scanned { IsScanned self.old.source.now self.old.start self.old.place self.old.depth self.old.tokens.items }
        requires short { length self.old.source.now ≤ max_source_len }
        ensures scanned { IsScanned self.new.source.now self.new.start self.new.place self.new.depth self.new.tokens.items }
        ensures on { self.old.start ≤ self.new.start }
        ensures source { self.new.source.now ≡ self.old.source.now }
    {
        while self.start < self.source.len() && is_white(self.source[self.start]) {
            self.place = self.place.past(self.source[self.start]);
            self.start += 1;
        }
    }

    /// Reads the next item, and skips the white space after it.
    fn step(&mut self) -> Result<(), LexFault>
        requires scanned { IsScanned self.old.source.now self.old.start self.old.place self.old.depth self.old.tokens.items }
        requires more { self.old.start < length self.old.source.now }
        requires short { length self.old.source.now ≤ max_source_len }
        ensures scanned { OnOk result (IsScanned self.new.source.now self.new.start self.new.place self.new.depth self.new.tokens.items) }
        ensures on { OnOk result (self.old.start < self.new.start) }
        ensures source { self.new.source.now ≡ self.old.source.now }
        ensures fault { IfErr result (λ fault. IsRefusal self.old.source.now fault) }
    {
        let rest = &self.source[self.start..];
        let (item, len) = match next_item(rest) {
            Next::Item(item, len) => (item, len),
            Next::OpenComment => return Err(LexFault::OpenComment(self.place)),
            Next::Nothing => return Err(LexFault::Lexeme(self.place)),
        };
        let text = &rest[..len];
        let Some(depth) = depth_after(self.depth, text) else {
            return Err(LexFault::TooDeep(self.place));
        };
        let end = self.start + len;
        add_token(&mut self.tokens, item, self.start, len, self.place)?;
        self.place = self.place.behind(item, text);
        self.start = end;
        self.depth = depth;
        self.pass_white();
        Ok(())
    }
}

/// Returns the lexemes of a source, in order (Haskell 98 Report, section 2.2).
///
/// # Errors
///
/// `TooLong` if the source has more than 1,048,576 bytes. Otherwise the first of these faults in the text:
/// - `Lexeme` if no lexeme, comment or white space can be completed.
/// - `OpenComment` at the outermost `{-` that isn't closed.
/// - `TooDeep` at the first bracket above 200 open ones.
///
/// `Memory` may come at any time.
pub fn lex(alloc: Global, source: &[u8]) -> Result<Vec<Token>, LexFault>
    // These are the tokens of the source's cut into white space, comments and lexemes, each the longest at its place.
    ensures tokens { IfOk result (λ tokens. AreTokensOf source.now tokens.items) }
    // Each token lies in the source, and its bytes are text.
    ensures texts { IfOk result (λ tokens. All (LiesIn source.now) tokens.items) }
    // There is no other cut.
    ensures only { IfOk result (λ tokens. (pieces : List Piece) → IsCut pieces source.now → tokens.items ≡ tokens_of pieces) }
    // A source that is too long is always refused with `TooLong`.
    ensures too_long { max_source_len < length source.now → result ≡ Err LexFault.TooLong }
    // The fault is the first in the text, unless memory ran out.
    ensures fault { IfErr result (λ fault. IsRefusal source.now fault) }
{
    if source.len() > MAX_SOURCE_LEN {
        return Err(LexFault::TooLong);
    }
    let mut lexer = Lexer {
        source,
        start: 0,
        place: Place { line: 1, column: 1 },
        depth: 0,
        tokens: Vec::new(alloc),
    };
    while lexer.start < source.len() {
        lexer.step()?;
    }
    Ok(lexer.tokens)
}
