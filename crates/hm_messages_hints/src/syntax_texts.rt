//! The texts of the hint at a fault of syntax.
ghost use Rattle.std.specs.Prelude.{◌≡◌, ◌++◌, IfOk, string_bytes};
ghost use Rattle.hm_messages_hints.specs.SyntaxTexts.{change_help, change_text, quoted, syntax_help, syntax_text};

use crate::change::TokenChange;
use crate::syntax_hints::SyntaxHint;
use std::alloc::{AllocError, Global};

/// Returns the text of a token between quotes. The end of a source has no text.
fn quoted(alloc: Global, text: &str) -> Result<String, AllocError>
    ensures { IfOk result (λ quote. string_bytes quote ≡ quoted text.now) }
{
    if text.is_empty() {
        return String::from_str(alloc, "the end of the source");
    }
    format!(in alloc; "'{text}'")
}

/// Returns the text of a token between quotes, with a text before and after it.
fn around(alloc: Global, front: &str, text: &str, back: &str) -> Result<String, AllocError>
    ensures { IfOk result (λ line. string_bytes line ≡ front.now ++ quoted text.now ++ back.now) }
{
    let quote = quoted(alloc, text)?;
    format!(in alloc; "{front}{quote}{back}")
}

/// Returns the first line of the text of a change of the token with this text.
fn change_text(alloc: Global, change: TokenChange, text: &str) -> Result<String, AllocError>
    ensures { IfOk result (λ line. string_bytes line ≡ change_text change text.now) }
{
    let quote = quoted(alloc, text)?;
    let quote = quote.as_str();
    match change {
        TokenChange::Insert(mark) => {
            let mark = mark.text();
            format!(in alloc; "expected '{mark}' before {quote}")
        }
        TokenChange::Replace(mark) => {
            let mark = mark.text();
            format!(in alloc; "expected '{mark}', found {quote}")
        }
        TokenChange::Remove => format!(in alloc; "unexpected {quote}"),
    }
}

/// Returns the first line of the text of a hint, without a line's end.
///
/// `text` is that of the token that the hint is about: the one at the change, if it is one, else the one at the fault. It is empty at the
/// end of the source.
pub fn syntax_text(alloc: Global, hint: SyntaxHint, text: &str) -> Result<String, AllocError>
    ensures { IfOk result (λ line. string_bytes line ≡ syntax_text hint text.now) }
{
    match hint {
        SyntaxHint::NoHeader => String::from_str(alloc, "a file begins with 'module NAME where {'"),
        SyntaxHint::ModuleEnded => String::from_str(
            alloc,
            "the module ends at the '}' before this, and only another 'module' may follow",
        ),
        SyntaxHint::NoBrace => around(
            alloc,
            "expected '{' before ",
            text,
            ": layout isn't supported",
        ),
        SyntaxHint::LeftOut(feature) => String::from_str(alloc, feature.text()),
        SyntaxHint::Comprehension(_) => String::from_str(
            alloc,
            "list comprehensions aren't supported",
        ),
        SyntaxHint::Range(_) => String::from_str(alloc, "'[a .. b]' isn't supported"),
        SyntaxHint::SmallName => around(alloc, "", text, " must begin with a capital letter here"),
        SyntaxHint::AppliedVariable => around(
            alloc,
            "a type variable takes no arguments: is '->' or ',' missing before ",
            text,
            "?",
        ),
        SyntaxHint::Repaired(repair) => change_text(alloc, repair.change, text),
        SyntaxHint::WherePart(_) => String::from_str(
            alloc,
            "'where' can't be within parentheses or square brackets",
        ),
        SyntaxHint::NoElse(_) => around(alloc, "an 'if' before ", text, " has no 'else'"),
        SyntaxHint::NotClosed(_) => around(alloc, "a bracket before ", text, " isn't closed"),
        SyntaxHint::InPattern(_) => around(alloc, "unexpected ", text, " in a pattern of a 'case'"),
        SyntaxHint::Record => String::from_str(alloc, "fields with names aren't supported"),
        SyntaxHint::Update => String::from_str(
            alloc,
            "record update isn't supported: is 'where' missing before '{'?",
        ),
        SyntaxHint::NoAlternative => String::from_str(
            alloc,
            "a 'case' needs at least one alternative",
        ),
        SyntaxHint::Unexpected => change_text(alloc, TokenChange::Remove, text),
        SyntaxHint::AppliedName(_) => around(
            alloc,
            "a variable takes no arguments in a pattern: is ',' missing before ",
            text,
            "?",
        ),
        SyntaxHint::TypedPattern => String::from_str(alloc, "'::' can't follow a pattern"),
        SyntaxHint::ConsPattern => String::from_str(alloc, "unexpected ':' after a pattern"),
        SyntaxHint::GuardAfterEquals => String::from_str(alloc, "a guard can't follow '='"),
        SyntaxHint::GuardArrow(_) => String::from_str(
            alloc,
            "expected '=' after the guard, found '->'",
        ),
        SyntaxHint::ConstructorComma(_) => String::from_str(
            alloc,
            "unexpected ',' between constructors",
        ),
        SyntaxHint::NumberComma => String::from_str(alloc, "unexpected ',' after a number"),
        SyntaxHint::WhereAfterSemicolon => String::from_str(alloc, "unexpected ';' before 'where'"),
        SyntaxHint::NoThen(_) => around(alloc, "an 'if' before ", text, " has no 'then'"),
        SyntaxHint::NewtypeArguments(_) => String::from_str(
            alloc,
            "a 'newtype' has one constructor with one argument",
        ),
        SyntaxHint::LateQualified => String::from_str(
            alloc,
            "'qualified' comes before the name of the module",
        ),
        SyntaxHint::AtSign => String::from_str(
            alloc,
            "'@' can only follow a variable in a pattern",
        ),
        SyntaxHint::GuardAfterSemicolon => String::from_str(alloc, "unexpected ';' before '|'"),
        SyntaxHint::LateImport => String::from_str(alloc, "an import can't follow a declaration"),
        SyntaxHint::ExtraComma => around(alloc, "unexpected ',' before ", text, ""),
        SyntaxHint::ElseGuard => String::from_str(alloc, "a guard can't be 'else'"),
        SyntaxHint::Hole => String::from_str(alloc, "'_' can only be in a pattern"),
        SyntaxHint::EqualsInCondition(_) => String::from_str(
            alloc,
            "unexpected '=' in the condition of an 'if'",
        ),
        SyntaxHint::NoIn(_) => around(alloc, "a 'let' before ", text, " has no 'in'"),
        SyntaxHint::SecondWhere(_) => String::from_str(
            alloc,
            "a second 'where' right after the first one",
        ),
        SyntaxHint::BraceGroup => String::from_str(alloc, "an expression can't begin with '{'"),
        SyntaxHint::GuardEquals(_) => String::from_str(
            alloc,
            "expected '->' after the guard, found '='",
        ),
    }
}

/// Returns the second line of the text of a change.
fn change_help(change: TokenChange) -> &'static str
    ensures { result.now ≡ change_help change }
{
    match change {
        TokenChange::Insert(_) | TokenChange::Replace(_) => "With it this can be read.\n",
        TokenChange::Remove => "Without it this can be read.\n",
    }
}

/// Returns the second line of the text of a hint.
pub fn syntax_help(hint: SyntaxHint) -> &'static str
    ensures { result.now ≡ syntax_help hint }
{
    match hint {
        SyntaxHint::NoHeader => "A source is made of modules with headers and braces.\n",
        SyntaxHint::ModuleEnded => "Is one `}` too many?\n",
        SyntaxHint::NoBrace => "Write `{` here, `;` between the items, and `}` at the end.\n",
        SyntaxHint::LeftOut(feature) => feature.help(),
        SyntaxHint::Comprehension(_) => "Use `map`, `filter` and `concatMap`.\n",
        SyntaxHint::Range(_) => "Write the list out, or use `iterate` and `take`.\n",
        SyntaxHint::SmallName =>
            "The names of modules, types and constructors begin with a capital letter, and no others do.\n",
        SyntaxHint::Repaired(repair) => change_help(repair.change),
        SyntaxHint::AppliedVariable =>
            "Only a type with a name takes arguments, such as `Maybe a`.\n",
        SyntaxHint::WherePart(_) =>
            "It belongs to a whole definition or alternative. Within an expression, write `let { .. } in ..`.\n",
        SyntaxHint::NoElse(_) => "Each `if` has one: `if c then x else y`.\n",
        SyntaxHint::NotClosed(_) =>
            "Each `(`, `[` and `{` is closed in the order in which they were opened, the last one first.\n",
        SyntaxHint::InPattern(_) =>
            "An alternative is `pattern -> expression`. If a new definition begins here, the `}` of the `case` before it is missing.\n",
        SyntaxHint::Record =>
            "Write the types of a constructor's arguments alone, and take it apart by patterns.\n",
        SyntaxHint::Update =>
            "Build the value with its constructor. If local definitions follow, write `where` before `{`.\n",
        SyntaxHint::NoAlternative => "Write an alternative, such as `_ -> x`.\n",
        SyntaxHint::Unexpected => "No module can go on with this here.\n",
        SyntaxHint::AppliedName(_) =>
            "Only a constructor takes arguments, and its name begins with a capital letter.\n",
        SyntaxHint::TypedPattern =>
            "Write a signature of its own for a type, such as `f :: Int -> Int`. Between an element and a list, write `:`.\n",
        SyntaxHint::ConsPattern =>
            "Write parentheses around a pattern with `:`, such as `f (x : xs)`.\n",
        SyntaxHint::GuardAfterEquals => "Write the guard before the `=`: `f x | c = y`.\n",
        SyntaxHint::GuardArrow(_) => "Only an alternative of a `case` has `->` after its guard.\n",
        SyntaxHint::ConstructorComma(_) =>
            "Write `|` between constructors, and spaces between their arguments: `data T = A Int Int | B`.\n",
        SyntaxHint::NumberComma =>
            "Write a number without commas, and a tuple between parentheses.\n",
        SyntaxHint::WhereAfterSemicolon =>
            "A `where` belongs to the definition before it, so no `;` is between them.\n",
        SyntaxHint::NoThen(_) => "An `if` has no braces: `if c then x else y`.\n",
        SyntaxHint::NewtypeArguments(_) =>
            "Write `data` for a type with more constructors or arguments.\n",
        SyntaxHint::LateQualified => "Write `import qualified M`.\n",
        SyntaxHint::AtSign => "A pattern `x@(y : ys)` is left of the `=` or the `->`.\n",
        SyntaxHint::GuardAfterSemicolon =>
            "A guard belongs to what is before it, so no `;` is between them.\n",
        SyntaxHint::LateImport =>
            "The imports of a module come before all its other declarations.\n",
        SyntaxHint::ExtraComma => "A comma is between two parts, and none follows the last one.\n",
        SyntaxHint::ElseGuard => "Write `otherwise`: `f x | c = y | otherwise = z`.\n",
        SyntaxHint::Hole => "Write `undefined` for an expression that is missing.\n",
        SyntaxHint::EqualsInCondition(_) =>
            "Compare by patterns, or take the comparison as an argument.\n",
        SyntaxHint::NoIn(_) => "Each `let` has one: `let { .. } in x`.\n",
        SyntaxHint::SecondWhere(_) =>
            "A definition or an alternative has one `where`, with all its local definitions between the braces.\n",
        SyntaxHint::BraceGroup =>
            "Braces are around definitions and alternatives. Write parentheses around an expression.\n",
        SyntaxHint::GuardEquals(_) =>
            "Only a definition has `=` after its guard, and an alternative of a `case` has `->`.\n",
    }
}
