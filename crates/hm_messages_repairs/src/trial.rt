//! Trials: checks whether the tokens of a source, or of a part of it, can be read after a change.
ghost use Rattle.std.specs.Prelude.{◌≡◌, ◌≤◌, ◌<◌, ◌++◌, ℕ, List, All, IfOk, IfSome, OnOk, drop, length, true};
ghost use Rattle.hm_lex.specs.Texts.{LiesIn};
ghost use Rattle.hm_messages_repairs.specs.Trials.{mark_of};
ghost use Rattle.hm_messages_hints.specs.Marks.{IsMarkIn};
ghost use Rattle.hm_messages_hints.specs.Repairs.{IsRepair, changed, repaired, unrepaired};
ghost use Rattle.hm_parse_grammar.specs.Grammar.Modules.{Spells};
ghost use Rattle.hm_syntax.specs.declared.ast.Module.{Module};

use hm_lex::{Place, Token};
use hm_messages_hints::{Mark, Repair, Scope, TokenChange};
use hm_messages_outline::Run;
use hm_parse::parse_run;
use std::alloc::{AllocError, Global};

/// Appends a mark to a text, and returns its token. A text of 4 GiB counts as out of memory.
fn mark_token(text: &mut Vec<u8>, mark: Mark) -> Result<Token, AllocError>
    ensures extends { OnOk result ((rest : List ℕ) × (text.new.items ≡ text.old.items ++ rest)) }
    ensures mark { IfOk result (λ token. IsMarkIn text.new.items mark token) }
{
    let start = u32::try_from(text.len()).map_err(|_| AllocError)?;
    text.extend_from_slice(mark.text().as_bytes())?;
    let end = u32::try_from(text.len()).map_err(|_| AllocError)?;
    Ok(Token {
        kind: mark.kind(),
        start,
        end,
        place: Place { line: 1, column: 1 },
    })
}

/// Returns the mark that a change puts in, or `}` if it puts none in.
fn mark_of(change: TokenChange) -> Mark
    ensures { result ≡ mark_of change }
{
    match change {
        TokenChange::Insert(mark) => mark,
        TokenChange::Replace(mark) => mark,
        TokenChange::Remove => Mark::RightBrace,
    }
}

/// Returns all tokens except the first.
fn rest_of(tokens: &[Token]) -> &[Token]
    ensures { result.now ≡ drop 1 tokens.now }
{
    if tokens.is_empty() {
        return tokens;
    }
    &tokens[1..]
}

/// Appends tokens after the change of the one with this number.
#[tactic(auto, using(crate::proofs::Trials::replaced_is, crate::proofs::Trials::removed_is))]
fn add_changed(
    trial: &mut Vec<Token>,
    tokens: &[Token],
    at: usize,
    change: TokenChange,
    mark: Token,
) -> Result<(), AllocError>
    requires { at ≤ length tokens.now }
    ensures { OnOk result (trial.new.items ≡ trial.old.items ++ changed change at mark tokens.now) }
{
    let (front, back) = tokens.split_at(at);
    trial.extend_from_slice(front)?;
    match change {
        TokenChange::Insert(_) => {
            trial.push(mark)?;
            trial.extend_from_slice(back)?;
        }
        TokenChange::Replace(_) => {
            trial.push(mark)?;
            trial.extend_from_slice(rest_of(back))?;
        }
        TokenChange::Remove => trial.extend_from_slice(rest_of(back))?,
    }
    Ok(())
}

/// Returns whether a range is within `len` tokens.
fn lies_within(range: Run, len: usize) -> bool
    ensures { result ≡ true → (range.start ≤ range.end) × (range.end ≤ len) }
{
    range.start <= range.end && range.end <= len
}

/// Returns the tokens after a change, or `None` if its numbers aren't those of tokens.
fn repaired(
    alloc: Global,
    tokens: &[Token],
    repair: Repair,
    mark: Token,
    close: Token,
) -> Result<Option<Vec<Token>>, AllocError>
    ensures { IfOk result (λ found. IfSome found (λ trial. trial.items ≡ repaired repair mark close tokens.now)) }
{
    let mut trial = Vec::new(alloc);
    match repair.scope {
        Scope::Whole => {
            if repair.at > tokens.len() {
                return Ok(None);
            }
            add_changed(&mut trial, tokens, repair.at, repair.change, mark)?;
        }
        Scope::Declaration { header, body } => {
            if !lies_within(header, tokens.len()) || !lies_within(body, tokens.len()) {
                return Ok(None);
            }
            if repair.at < body.start || repair.at > body.end {
                return Ok(None);
            }
            trial.extend_from_slice(&tokens[header.start..header.end])?;
            let body_tokens = &tokens[body.start..body.end];
            add_changed(
                &mut trial,
                body_tokens,
                repair.at - body.start,
                repair.change,
                mark,
            )?;
            trial.push(close)?;
        }
    }
    Ok(Some(trial))
}

/// Returns the tokens that are read without a change, or `None` if the numbers of its part aren't those of tokens.
fn unrepaired(
    alloc: Global,
    tokens: &[Token],
    scope: Scope,
    close: Token,
) -> Result<Option<Vec<Token>>, AllocError>
    ensures { IfOk result (λ found. IfSome found (λ trial. trial.items ≡ unrepaired scope close tokens.now)) }
{
    let mut trial = Vec::new(alloc);
    match scope {
        Scope::Whole => trial.extend_from_slice(tokens)?,
        Scope::Declaration { header, body } => {
            if !lies_within(header, tokens.len()) || !lies_within(body, tokens.len()) {
                return Ok(None);
            }
            trial.extend_from_slice(&tokens[header.start..header.end])?;
            trial.extend_from_slice(&tokens[body.start..body.end])?;
            trial.push(close)?;
        }
    }
    Ok(Some(trial))
}

/// Returns whether the tokens of a source, or of a part of it, can't be read as they are.
#[tactic(auto, using(crate::proofs::Trials::unrepaired_lie))]
fn is_unread(
    alloc: Global,
    text: &[u8],
    tokens: &[Token],
    scope: Scope,
    close: Token,
) -> Result<bool, AllocError>
    requires lie { All (LiesIn text.now) tokens.now }
    requires closes { LiesIn text.now close }
    ensures { IfOk result (λ is. is ≡ true → (others : List Module) → ¬ (Spells others text.now (unrepaired scope close tokens.now))) }
{
    let Some(trial) = unrepaired(alloc, tokens, scope, close)? else {
        return Ok(false);
    };
    match parse_run(alloc, text, trial.as_slice())? {
        Some(_) => Ok(false),
        None => Ok(true),
    }
}

/// Returns whether the tokens of a source can be read after a change, and not without it.
#[tactic(auto, using(crate::proofs::Trials::trial_lies, crate::proofs::Trials::repair_of))]
pub(crate) fn is_read(
    alloc: Global,
    source: &[u8],
    tokens: &[Token],
    repair: Repair,
) -> Result<bool, AllocError>
    requires { All (LiesIn source.now) tokens.now }
    ensures { IfOk result (λ is. is ≡ true → IsRepair source.now tokens.now repair) }
{
    let mut text = Vec::from_slice(alloc, source)?;
    let mark = mark_token(&mut text, mark_of(repair.change))?;
    let close = mark_token(&mut text, Mark::RightBrace)?;
    let Some(trial) = repaired(alloc, tokens, repair, mark, close)? else {
        return Ok(false);
    };
    let found = parse_run(alloc, text.as_slice(), trial.as_slice())?;
    if found.is_none() {
        return Ok(false);
    }
    Ok(is_unread(alloc, text.as_slice(), tokens, repair.scope, close)?)
}
