//! What a message says beside its place and its title: one arm for each topic.
ghost use Rattle.std.specs.Prelude.{◌≡◌, [], None, Some, codes, option_map};
ghost use Rattle.hm_messages_json.specs.declared.message.Level.TheVariants.{Error, Note};
ghost use Rattle.hm_messages.specs.Notices.{fault_notice, notice_of, signature_notice, syntax_notice, types_notice, way_kind};
ghost use Rattle.hm_messages.specs.Subjects.{subject_of};

use crate::sentences::{fault_sentence, types_sentence};
use crate::topic::{BothTypes, PlacedAdvice, Topic, Way};
use hm_messages_hints::{lexeme_help, syntax_help};
use hm_messages_json::{Level, Position};
use hm_messages_titles::NamedFault;
use hm_names::Kind;
use hm_verdicts::kind_word;

/// What a message says beside its place and its title.
#[derive(Clone, Copy)]
pub(crate) struct Notice<'a> {
    pub level: Level,
    /// The report's word for what is wrong, or the word for a kind of note.
    pub kind: &'static str,
    /// The name that it is about, if it is about one.
    pub name: Option<&'a str>,
    /// The other place that it names, if it names one.
    pub other: Option<Position>,
    /// The line that explains it, with its end, or no text.
    pub sentence: &'static str,
    /// The type that is expected at a part.
    pub expected: Option<&'a str>,
    /// The type that a part or a definition has.
    pub actual: Option<&'a str>,
}

/// Returns the notice of an error.
fn error<'a>(kind: &'static str, name: Option<&'a str>, sentence: &'static str) -> Notice<'a>
    ensures level { result.level ≡ Error }
    ensures kind { result.kind.now ≡ kind.now }
    ensures name { option_map (λ x. x.now) result.name ≡ option_map (λ x. x.now) name.entry }
    ensures other { result.other ≡ None }
    ensures sentence { result.sentence.now ≡ sentence.now }
    ensures expected { option_map (λ x. x.now) result.expected ≡ None }
    ensures actual { option_map (λ x. x.now) result.actual ≡ None }
{
    Notice {
        level: Level::Error,
        kind,
        name,
        other: None,
        sentence,
        expected: None,
        actual: None,
    }
}

/// Returns a note without a sentence.
fn note<'a>(kind: &'static str, name: Option<&'a str>) -> Notice<'a>
    ensures level { result.level ≡ Note }
    ensures kind { result.kind.now ≡ kind.now }
    ensures name { option_map (λ x. x.now) result.name ≡ option_map (λ x. x.now) name.entry }
    ensures other { result.other ≡ None }
    ensures sentence { result.sentence.now ≡ [] }
    ensures expected { option_map (λ x. x.now) result.expected ≡ None }
    ensures actual { option_map (λ x. x.now) result.actual ≡ None }
{
    Notice {
        level: Level::Note,
        kind,
        name,
        other: None,
        sentence: "",
        expected: None,
        actual: None,
    }
}

/// Returns the notice of a fault of a module.
fn fault_notice<'a>(kind: Kind, named: &NamedFault<'a>) -> Notice<'a>
    ensures level { result.level ≡ (fault_notice kind named.now.name.now named.now.other).level }
    ensures kind { result.kind.now ≡ (fault_notice kind named.now.name.now named.now.other).kind }
    ensures name { option_map (λ x. x.now) result.name ≡ Some named.now.name.now }
    ensures other { result.other ≡ named.now.other }
    ensures sentence { result.sentence.now ≡ (fault_notice kind named.now.name.now named.now.other).sentence }
    ensures expected { option_map (λ x. x.now) result.expected ≡ None }
    ensures actual { option_map (λ x. x.now) result.actual ≡ None }
{
    Notice {
        level: Level::Error,
        kind: kind_word(kind),
        name: Some(named.name),
        other: named.other,
        sentence: fault_sentence(kind),
        expected: None,
        actual: None,
    }
}

/// Returns the notice of a fault of syntax.
fn syntax_notice<'a>(advice: &PlacedAdvice<'a>) -> Notice<'a>
    ensures level { result.level ≡ Error }
    ensures kind { result.kind.now ≡ codes "syntax" }
    ensures name { option_map (λ x. x.now) result.name ≡ None }
    ensures other { result.other ≡ advice.now.other }
    ensures sentence { result.sentence.now ≡ (syntax_notice advice.now.hint advice.now.other).sentence }
    ensures expected { option_map (λ x. x.now) result.expected ≡ None }
    ensures actual { option_map (λ x. x.now) result.actual ≡ None }
{
    let mut notice = error("syntax", None, syntax_help(advice.hint));
    notice.other = advice.other;
    notice
}

/// Returns the note of a part with two types.
fn types_notice<'a>(name: &'a str, types: &BothTypes<'a>) -> Notice<'a>
    ensures level { result.level ≡ Note }
    ensures kind { result.kind.now ≡ codes "mistyped" }
    ensures name { option_map (λ x. x.now) result.name ≡ Some name.now }
    ensures other { result.other ≡ None }
    ensures sentence { result.sentence.now ≡ (types_notice name.now types.now.expected.now types.now.actual.now types.now.infinite).sentence }
    ensures expected { option_map (λ x. x.now) result.expected ≡ Some types.now.expected.now }
    ensures actual { option_map (λ x. x.now) result.actual ≡ Some types.now.actual.now }
{
    Notice {
        level: Level::Note,
        kind: "mistyped",
        name: Some(name),
        other: None,
        sentence: types_sentence(types.infinite),
        expected: Some(types.expected),
        actual: Some(types.actual),
    }
}

/// Returns the note of a signature without which a definition has a type.
fn signature_notice<'a>(name: &'a str, own: &'a str) -> Notice<'a>
    ensures level { result.level ≡ Note }
    ensures kind { result.kind.now ≡ codes "signature" }
    ensures name { option_map (λ x. x.now) result.name ≡ Some name.now }
    ensures other { result.other ≡ None }
    ensures sentence { result.sentence.now ≡ [] }
    ensures expected { option_map (λ x. x.now) result.expected ≡ None }
    ensures actual { option_map (λ x. x.now) result.actual ≡ Some own.now }
{
    Notice {
        level: Level::Note,
        kind: "signature",
        name: Some(name),
        other: None,
        sentence: "",
        expected: None,
        actual: Some(own),
    }
}

/// Returns the note of a name that isn't in scope, with the type that is expected of it.
fn expected_notice<'a>(name: &'a str, expected: &'a str) -> Notice<'a>
    ensures level { result.level ≡ Note }
    ensures kind { result.kind.now ≡ codes "expected" }
    ensures name { option_map (λ x. x.now) result.name ≡ Some name.now }
    ensures other { result.other ≡ None }
    ensures sentence { result.sentence.now ≡ [] }
    ensures expected { option_map (λ x. x.now) result.expected ≡ Some expected.now }
    ensures actual { option_map (λ x. x.now) result.actual ≡ None }
{
    Notice {
        level: Level::Note,
        kind: "expected",
        name: Some(name),
        other: None,
        sentence: "",
        expected: Some(expected),
        actual: None,
    }
}

/// Returns the word for a change that gives a definition a type.
fn way_kind(way: Way) -> &'static str
    ensures { result.now ≡ way_kind way }
{
    match way {
        Way::Expression(_) => "replaceable",
        Way::Pattern(_) => "pattern",
        Way::Exchange(_) => "exchange",
        Way::Removal(_) => "removal",
        Way::Sides(_) => "exchange",
        Way::Patterns(_) => "exchange",
        Way::Brackets(_) => "brackets",
        Way::ListBrackets(_) => "brackets",
        Way::Argument(_) => "argument",
        Way::Semicolon => "mark",
        Way::Comma => "mark",
        Way::Both(_, _, _) => "both",
    }
}

// Why: docs/DECISIONS.md, "Names of files".
/// Returns what a message says beside its place and its title.
pub(crate) fn notice_of<'a>(topic: &Topic<'a>) -> Notice<'a>
    ensures level { result.level ≡ (notice_of (subject_of topic.now)).level }
    ensures kind { result.kind.now ≡ (notice_of (subject_of topic.now)).kind }
    ensures name { option_map (λ x. x.now) result.name ≡ (notice_of (subject_of topic.now)).name }
    ensures other { result.other ≡ (notice_of (subject_of topic.now)).other }
    ensures sentence { result.sentence.now ≡ (notice_of (subject_of topic.now)).sentence }
    ensures expected { option_map (λ x. x.now) result.expected ≡ (notice_of (subject_of topic.now)).expected }
    ensures actual { option_map (λ x. x.now) result.actual ≡ (notice_of (subject_of topic.now)).actual }
{
    match topic {
        Topic::Fault(kind, named) => fault_notice(*kind, named),
        Topic::Replaceable(name, way) => note(way_kind(*way), Some(name)),
        Topic::Wrapped(name, _, _) => note("constructor", Some(name)),
        Topic::TooManyArguments(name, _) => note("removal", Some(name)),
        Topic::TooFewArguments(name, _) => note("argument", Some(name)),
        Topic::Mistyped(name, types) => types_notice(name, types),
        Topic::Unsigned(name, _, own) => signature_notice(name, own),
        Topic::Follows(name, _, _) => note("follows", Some(name)),
        Topic::Faulty(name) => note("skipped", Some(name)),
        Topic::Skipped(name) => note("skipped", Some(name)),
        Topic::TooLong => error("too-long", None, "A source has at most 1,048,576 bytes.\n"),
        Topic::Lexeme(hint, name) => error("lexeme", None, lexeme_help(*hint, name)),
        Topic::OpenComment => error(
            "open-comment",
            None,
            "A comment ends with `-}`; a `{-` within it begins another one.\n",
        ),
        Topic::TooDeep => error(
            "too-deep",
            None,
            "At most 200 brackets may be open at once.\n",
        ),
        Topic::Syntax(advice) => syntax_notice(advice),
        Topic::TooMany => error(
            "too-many-modules",
            None,
            "A set has at most 4,096 modules.\n",
        ),
        Topic::Twice(name) => error(
            "twice",
            Some(name),
            "Each module of a set has a name of its own, and `Prelude` is built in.\n",
        ),
        Topic::Twin(name) => note("twice", Some(name)),
        Topic::Missing(name, _) => error(
            "missing",
            Some(name),
            "An import names a module of the set or `Prelude`; there is no other library.\n",
        ),
        Topic::Cycle(name) => error(
            "cycle",
            Some(name),
            "Modules may not import each other in a circle.\n",
        ),
        Topic::Exhausted(name) => error(
            "no-memory",
            Some(name),
            "Its types grow too large, its imports or exports repeat too much, or the machine has no more memory.\n",
        ),
        Topic::Limit => note("limit", None),
        Topic::Step(_, import) => note("import", Some(import)),
        Topic::Hidden(_, name) => note("hidden", Some(name)),
        Topic::TypeVariable(name, _) => note("variable", Some(name)),
        Topic::LeftOut(_, name) => note("left-out", Some(name)),
        Topic::Private(_, name) => note("private", Some(name)),
        Topic::Importable(_, name) => note("importable", Some(name)),
        Topic::UnboundType(name, ty) => expected_notice(name, ty),
    }
}
