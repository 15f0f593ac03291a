//! The first line of a message, after the name of its file.
ghost use Rattle.std.specs.Prelude.{◌≡◌, IfOk, option_map, string_bytes};
ghost use Rattle.hm_messages.specs.Headings.{argument_title as argument_title_bytes, begin, brackets_title as brackets_title_bytes, arguments_text as arguments_bytes, end, exchange_title as exchange_title_bytes, expression_title as expression_title_bytes, follows_title as follows_title_bytes, heading as heading_bytes, list_brackets_title as list_brackets_title_bytes, mark_title as mark_title_bytes, missing_title as missing_title_bytes, near_module_text as near_module_bytes, mended_text as mended_bytes, mistyped_title as mistyped_title_bytes, pair_title as pair_title_bytes, pattern_title as pattern_title_bytes, patterns_title as patterns_title_bytes, removal_title as removal_title_bytes, replaceable_title as replaceable_title_bytes, sides_title as sides_title_bytes, tag as tag_bytes, title as title_bytes, too_few_title as too_few_title_bytes, too_many_title as too_many_title_bytes, token_place_text as token_place_bytes, unsigned_title as unsigned_title_bytes, wrapped_title as wrapped_title_bytes};
ghost use Rattle.hm_messages.specs.Subjects.{subject_of, syntax_fault};

use crate::cutting::shortened;
use crate::notices::notice_of;
use crate::topic::{ArgumentCounts, BothTypes, Pair, PlacedAdvice, Topic, Way};
use hm_lex::Place;
use hm_messages_excerpts::shown;
use hm_messages_hints::{lexeme_text, syntax_text};
use hm_messages_json::{Level, Position};
use hm_messages_titles::{fault_title, hidden_title};
use std::alloc::{AllocError, Global};

/// How messages are written.
#[derive(Clone, Copy, Debug, PartialEq, Eq)]
pub enum MessageFormat {
    Plain,
    /// For a reader, with the escapes of a terminal.
    Coloured,
    /// As a JSON object each, on a line of its own.
    Json,
}

/// Returns the word of a level, after the escape that begins its colour.
pub(crate) fn begin(format: MessageFormat, level: Level) -> &'static str
    ensures { result.now ≡ begin format level }
{
    match format {
        MessageFormat::Plain | MessageFormat::Json => match level {
            Level::Error => "error",
            Level::Note => "note",
        },
        MessageFormat::Coloured => match level {
            Level::Error => "\x1b[1;31merror",
            Level::Note => "\x1b[1;36mnote",
        },
    }
}

/// Returns the escape that ends a colour.
pub(crate) fn end(format: MessageFormat) -> &'static str
    ensures { result.now ≡ end format }
{
    match format {
        MessageFormat::Plain | MessageFormat::Json => "",
        MessageFormat::Coloured => "\x1b[0m",
    }
}

/// Returns the text about the place of a token.
fn token_place_text(alloc: Global, other: Option<Position>) -> Result<String, AllocError>
    ensures { IfOk result (λ text. string_bytes text ≡ token_place_bytes other) }
{
    match other {
        Some(position) => {
            let line = position.line;
            let column = position.columns.characters;
            format!(in alloc; " at {line}:{column}")
        }
        None => Ok(String::new(alloc)),
    }
}

// Why: docs/DECISIONS.md, "Where a change is".
/// Returns the hint at a fault of syntax, with the position of the token that it is about, if that is another one than at the fault.
fn syntax_title(alloc: Global, advice: &PlacedAdvice<'_>) -> Result<String, AllocError>
    ensures { IfOk result (λ text. string_bytes text ≡ title_bytes (syntax_fault advice.now.hint advice.now.text.now advice.now.other)) }
{
    let mut text = syntax_text(alloc, advice.hint, advice.text)?;
    text.push_str(token_place_text(alloc, advice.other)?.as_str())?;
    Ok(text)
}

/// Returns the text about an expression that ends at this place.
fn expression_title(alloc: Global, name: &str, end: Place) -> Result<String, AllocError>
    ensures { IfOk result (λ text. string_bytes text ≡ expression_title_bytes name.now end) }
{
    let Place { line, column } = end;
    format!(in alloc; "'{name}' has a type with another expression here (up to {line}:{column})")
}

/// Returns the text about a pattern that ends at this place.
fn pattern_title(alloc: Global, name: &str, end: Place) -> Result<String, AllocError>
    ensures { IfOk result (λ text. string_bytes text ≡ pattern_title_bytes name.now end) }
{
    let Place { line, column } = end;
    format!(in alloc;
        "'{name}' has a type if this pattern is '_' and its variables have every type (up to {line}:{column})"
    )
}

/// Returns the text about an expression that is exchanged with the one at this place.
fn exchange_title(alloc: Global, name: &str, other: Place) -> Result<String, AllocError>
    ensures { IfOk result (λ text. string_bytes text ≡ exchange_title_bytes name.now other) }
{
    let Place { line, column } = other;
    format!(in alloc;
        "'{name}' has a type with this expression and the one at {line}:{column} exchanged"
    )
}

/// Returns the text about an expression that ends at this place and is left out.
fn removal_title(alloc: Global, name: &str, end: Place) -> Result<String, AllocError>
    ensures { IfOk result (λ text. string_bytes text ≡ removal_title_bytes name.now end) }
{
    let Place { line, column } = end;
    format!(in alloc; "'{name}' has a type if this is left out (up to {line}:{column})")
}

/// Returns the text about a side of a `:` that is exchanged with the one at this place.
fn sides_title(alloc: Global, name: &str, other: Place) -> Result<String, AllocError>
    ensures { IfOk result (λ text. string_bytes text ≡ sides_title_bytes name.now other) }
{
    let Place { line, column } = other;
    format!(in alloc;
        "'{name}' has a type with this side of ':' and the one at {line}:{column} exchanged"
    )
}

/// Returns the text about a pattern that is exchanged with the one at this place.
fn patterns_title(alloc: Global, name: &str, other: Place) -> Result<String, AllocError>
    ensures { IfOk result (λ text. string_bytes text ≡ patterns_title_bytes name.now other) }
{
    let Place { line, column } = other;
    format!(in alloc;
        "'{name}' has a type with this pattern and the one at {line}:{column} exchanged"
    )
}

/// Returns the text about an expression that ends at this place and gets brackets.
fn brackets_title(alloc: Global, name: &str, end: Place) -> Result<String, AllocError>
    ensures { IfOk result (λ text. string_bytes text ≡ brackets_title_bytes name.now end) }
{
    let Place { line, column } = end;
    format!(in alloc; "'{name}' has a type with brackets around this (up to {line}:{column})")
}

/// Returns the text about an expression that ends at this place and gets the brackets of a list.
fn list_brackets_title(alloc: Global, name: &str, end: Place) -> Result<String, AllocError>
    ensures { IfOk result (λ text. string_bytes text ≡ list_brackets_title_bytes name.now end) }
{
    let Place { line, column } = end;
    format!(in alloc; "'{name}' has a type with '[' and ']' around this (up to {line}:{column})")
}

/// Returns the text about an expression that ends at this place and gets one more argument.
fn argument_title(alloc: Global, name: &str, end: Place) -> Result<String, AllocError>
    ensures { IfOk result (λ text. string_bytes text ≡ argument_title_bytes name.now end) }
{
    let Place { line, column } = end;
    format!(in alloc;
        "'{name}' has a type with one more argument after this (up to {line}:{column})"
    )
}

/// Returns the text about an expression before which a mark is missing.
fn mark_title(alloc: Global, name: &str, mark: &str) -> Result<String, AllocError>
    ensures { IfOk result (λ text. string_bytes text ≡ mark_title_bytes name.now mark.now) }
{
    format!(in alloc; "'{name}' has a type with '{mark}' before this")
}

/// Returns the text about a part that ends at this place, and another one that begins elsewhere.
fn pair_title(
    alloc: Global,
    name: &str,
    pair: Pair,
    end: Place,
    other: Place,
) -> Result<String, AllocError>
    ensures { IfOk result (λ text. string_bytes text ≡ pair_title_bytes name.now pair end other) }
{
    let Place { line, column } = end;
    let Place {
        line: other_line,
        column: other_column,
    } = other;
    match pair {
        Pair::Expressions => format!(in alloc;
            "'{name}' has a type with other expressions both here (up to {line}:{column}) and at {other_line}:{other_column}"
        ),
        Pair::ExpressionBesidePattern => format!(in alloc;
            "'{name}' has a type with another expression here (up to {line}:{column}) if the pattern at {other_line}:{other_column} is '_' and its variables have every type"
        ),
        Pair::PatternBesideExpression => format!(in alloc;
            "'{name}' has a type if this pattern is '_' and its variables have every type (up to {line}:{column}), with another expression at {other_line}:{other_column}"
        ),
        Pair::Patterns => format!(in alloc;
            "'{name}' has a type if this pattern (up to {line}:{column}) and the one at {other_line}:{other_column} are '_' and their variables have every type"
        ),
    }
}

/// Returns the text about the near name of a module.
fn near_module_text(alloc: Global, near: Option<&str>) -> Result<String, AllocError>
    ensures { IfOk result (λ text. string_bytes text ≡ near_module_bytes (option_map (λ y. y.now) near.entry)) }
{
    match near {
        Some(near) => format!(in alloc; " (did you mean '{near}'?)"),
        None => Ok(String::new(alloc)),
    }
}

/// Returns the text about an import that names no module.
fn missing_title(alloc: Global, name: &str, near: Option<&str>) -> Result<String, AllocError>
    ensures { IfOk result (λ text. string_bytes text ≡ missing_title_bytes name.now (option_map (λ y. y.now) near.entry)) }
{
    let mut text = format!(in alloc; "no module '{name}' is given")?;
    text.push_str(near_module_text(alloc, near)?.as_str())?;
    Ok(text)
}

/// Returns the text about the change with which a definition has a type.
fn replaceable_title(alloc: Global, name: &str, way: Way) -> Result<String, AllocError>
    ensures { IfOk result (λ text. string_bytes text ≡ replaceable_title_bytes name.now way) }
{
    match way {
        Way::Expression(end) => expression_title(alloc, name, end),
        Way::Pattern(end) => pattern_title(alloc, name, end),
        Way::Exchange(other) => exchange_title(alloc, name, other),
        Way::Removal(end) => removal_title(alloc, name, end),
        Way::Sides(other) => sides_title(alloc, name, other),
        Way::Patterns(other) => patterns_title(alloc, name, other),
        Way::Brackets(end) => brackets_title(alloc, name, end),
        Way::ListBrackets(end) => list_brackets_title(alloc, name, end),
        Way::Argument(end) => argument_title(alloc, name, end),
        Way::Semicolon => mark_title(alloc, name, ";"),
        Way::Comma => mark_title(alloc, name, ","),
        Way::Both(pair, end, other) => pair_title(alloc, name, pair, end, other),
    }
}

/// Returns the text about an expression that ends at this place and gets a constructor.
fn wrapped_title(
    alloc: Global,
    name: &str,
    constructor: &str,
    end: Place,
) -> Result<String, AllocError>
    ensures { IfOk result (λ text. string_bytes text ≡ wrapped_title_bytes name.now constructor.now end) }
{
    let Place { line, column } = end;
    format!(in alloc;
        "'{name}' has a type with '{constructor}' in front of this (up to {line}:{column})"
    )
}

/// Returns the text about how many arguments a name has: `front` is `too many` or `too few`.
fn arguments_text(
    alloc: Global,
    front: &str,
    function: &str,
    here: usize,
) -> Result<String, AllocError>
    ensures { IfOk result (λ text. string_bytes text ≡ arguments_bytes front.now function.now here) }
{
    format!(in alloc; "{front} arguments: '{function}' has {here} here, and ")
}

/// Returns the text about how many arguments a definition has a type with. `back` says the change of an expression that ends at this place.
fn mended_text(
    alloc: Global,
    name: &str,
    count: usize,
    back: &str,
    end: Place,
) -> Result<String, AllocError>
    ensures { IfOk result (λ text. string_bytes text ≡ mended_bytes name.now count back.now end) }
{
    let Place { line, column } = end;
    format!(in alloc; "'{name}' has a type with {count}{back} (up to {line}:{column})")
}

/// Returns the text about an argument that is left out.
fn too_many_title(
    alloc: Global,
    name: &str,
    counts: &ArgumentCounts<'_>,
) -> Result<String, AllocError>
    ensures { IfOk result (λ text. string_bytes text ≡ too_many_title_bytes name.now counts.now.function.now counts.now.here counts.now.then counts.now.end) }
{
    let mut text = arguments_text(alloc, "too many", counts.function, counts.here)?;
    let rest = mended_text(alloc, name, counts.then, ", without this", counts.end)?;
    text.push_str(rest.as_str())?;
    Ok(text)
}

/// Returns the text about an expression that gets one more argument.
fn too_few_title(
    alloc: Global,
    name: &str,
    counts: &ArgumentCounts<'_>,
) -> Result<String, AllocError>
    ensures { IfOk result (λ text. string_bytes text ≡ too_few_title_bytes name.now counts.now.function.now counts.now.here counts.now.then counts.now.end) }
{
    let mut text = arguments_text(alloc, "too few", counts.function, counts.here)?;
    let rest = mended_text(
        alloc,
        name,
        counts.then,
        ", one more after this",
        counts.end,
    )?;
    text.push_str(rest.as_str())?;
    Ok(text)
}

/// Returns the text about a part with these two types.
fn mistyped_title(alloc: Global, types: &BothTypes<'_>) -> Result<String, AllocError>
    ensures { IfOk result (λ text. string_bytes text ≡ mistyped_title_bytes types.now.end types.now.expected.now types.now.actual.now) }
{
    let BothTypes {
        end,
        expected,
        actual,
        ..
    } = *types;
    let Place { line, column } = end;
    format!(in alloc;
        "this has type '{actual}', but '{expected}' is expected (up to {line}:{column})"
    )
}

/// Returns the text about a signature that ends at this place.
fn unsigned_title(alloc: Global, name: &str, end: Place, own: &str) -> Result<String, AllocError>
    ensures { IfOk result (λ text. string_bytes text ≡ unsigned_title_bytes name.now end own.now) }
{
    let Place { line, column } = end;
    format!(in alloc; "'{name}' has type '{own}' without this signature (up to {line}:{column})")
}

/// Returns the text about a signature that ends at this place, without which both definitions have types.
fn follows_title(alloc: Global, name: &str, other: &str, end: Place) -> Result<String, AllocError>
    ensures { IfOk result (λ text. string_bytes text ≡ follows_title_bytes name.now other.now end) }
{
    let Place { line, column } = end;
    format!(in alloc;
        "'{name}' and '{other}' have types without this signature (up to {line}:{column})"
    )
}

/// Returns what is wrong, in a few words.
pub(crate) fn title(alloc: Global, topic: &Topic<'_>) -> Result<String, AllocError>
    ensures { IfOk result (λ text. string_bytes text ≡ title_bytes (subject_of topic.now)) }
{
    match topic {
        Topic::Fault(kind, named) => fault_title(alloc, *kind, named),
        Topic::Replaceable(name, way) => replaceable_title(alloc, name, *way),
        Topic::Wrapped(name, constructor, end) => wrapped_title(alloc, name, constructor, *end),
        Topic::TooManyArguments(name, counts) => too_many_title(alloc, name, counts),
        Topic::TooFewArguments(name, counts) => too_few_title(alloc, name, counts),
        Topic::Mistyped(_, types) => mistyped_title(alloc, types),
        Topic::Unsigned(name, end, own) => unsigned_title(alloc, name, *end, own),
        Topic::Follows(name, other, end) => follows_title(alloc, name, other, *end),
        Topic::Faulty(name) => format!(in alloc; "skipped, since '{name}' has errors"),
        Topic::Skipped(name) => format!(in alloc; "skipped, since '{name}' is skipped"),
        Topic::TooLong => String::from_str(alloc, "the source is too long"),
        Topic::Lexeme(hint, name) => lexeme_text(alloc, *hint, name),
        Topic::OpenComment => String::from_str(alloc, "this comment isn't closed"),
        Topic::TooDeep => String::from_str(alloc, "too many open brackets"),
        Topic::Syntax(advice) => syntax_title(alloc, advice),
        Topic::TooMany => String::from_str(alloc, "too many modules"),
        Topic::Twice(name) => format!(in alloc; "the module name '{name}' is taken"),
        Topic::Twin(name) => format!(in alloc; "this module has the name '{name}' too"),
        Topic::Missing(name, near) => missing_title(alloc, name, *near),
        Topic::Cycle(name) => format!(in alloc; "the imports of module '{name}' lead back to it"),
        Topic::Exhausted(name) => format!(in alloc; "there is no memory to check module '{name}'"),
        Topic::Limit => String::from_str(
            alloc,
            "type errors after this one have no notes: the limit on trials is reached",
        ),
        Topic::Step(name, import) => format!(in alloc; "'{name}' imports '{import}'"),
        Topic::Hidden(kind, name) => hidden_title(alloc, *kind, name),
        Topic::TypeVariable(name, ty) => format!(in alloc;
            "'{name}' is a type variable; a type '{ty}' is in scope"
        ),
        Topic::LeftOut(module, name) => format!(in alloc;
            "'{module}' exports '{name}', but this import doesn't bring '{name}' into scope"
        ),
        Topic::Private(module, name) => format!(in alloc;
            "'{module}' declares '{name}' here, but doesn't export it"
        ),
        Topic::Importable(module, name) => format!(in alloc;
            "'{module}' exports '{name}', but this module doesn't import '{module}'"
        ),
        Topic::UnboundType(name, ty) => format!(in alloc;
            "'{name}' is expected to have type '{ty}'"
        ),
    }
}

/// Returns the word for an error, in square brackets. Notes have none.
fn tag(alloc: Global, level: Level, kind: &str) -> Result<String, AllocError>
    ensures { IfOk result (λ text. string_bytes text ≡ tag_bytes level kind.now) }
{
    match level {
        Level::Error => format!(in alloc; " [{kind}]"),
        Level::Note => Ok(String::new(alloc)),
    }
}

/// Returns the first line of a message, after the name of its file.
pub(crate) fn heading(
    alloc: Global,
    format: MessageFormat,
    place: Place,
    topic: &Topic<'_>,
) -> Result<String, AllocError>
    ensures { IfOk result (λ text. string_bytes text ≡ heading_bytes format place (subject_of topic.now)) }
{
    let title = title(alloc, topic)?;
    let short = shortened(alloc, title.as_bytes())?;
    let says = shown(alloc, short.as_slice())?;
    let says = says.as_str();
    let notice = notice_of(topic);
    let tag = tag(alloc, notice.level, notice.kind)?;
    let tag = tag.as_str();
    let begin = begin(format, notice.level);
    let end = end(format);
    let Place { line, column } = place;
    format!(in alloc; ":{line}:{column}: {begin}{end}: {says}{tag}\n")
}
