//! The topics of the notes of changes that give definitions types.
ghost use Rattle.std.specs.Prelude.{◌≡◌, ℕ, List, IfSome, string_bytes};
ghost use Rattle.hm_messages.specs.Subjects.{subject_of};
ghost use Rattle.hm_messages_edits.specs.Edits.{HasPartsIn};
ghost use Rattle.hm_build_messages.specs.Explanations.{AreCounts, IsSubjectOf, insertion_way as stated_insertion, other_of as other_place, subject_of_mend as stated_subject};

use hm_lex::Place;
use hm_messages::{ArgumentCounts, Topic, Way};
use hm_messages_arguments::{Arguments, arguments_with_one_more, arguments_without};
use hm_messages_changes::Insertion;
use hm_messages_trials::Mend;
use std::alloc::{AllocError, Global};

/// Returns the other place of the note: where the part ends, or where the second one begins.
pub(crate) fn other_of(mend: &Mend<'_>) -> Place
    ensures { result ≡ other_place mend.now }
{
    match mend {
        Mend::Expression(part) => part.end,
        Mend::Pattern(part) => part.end,
        Mend::Exchange(_, second) => second.start,
        Mend::Removal(part) => part.end,
        Mend::Sides(_, second) => second.start,
        Mend::Patterns(_, second) => second.start,
        Mend::Insertion(_, part) => part.end,
        Mend::Wrapped(_, part) => part.end,
    }
}

/// Returns the topic of the note of a text that is put in around a part, which ends at this place.
fn insertion_way(insertion: Insertion, end: Place) -> Way
    ensures { result ≡ stated_insertion insertion end }
{
    match insertion {
        Insertion::Brackets => Way::Brackets(end),
        Insertion::ListBrackets => Way::ListBrackets(end),
        Insertion::Argument => Way::Argument(end),
        Insertion::Semicolon => Way::Semicolon,
        Insertion::Comma => Way::Comma,
    }
}

/// Returns the topic of a change that gives the definition a type, with this as the other place.
fn way_of<'a>(definition: &'a str, mend: &Mend<'a>, other: Place) -> Topic<'a>
    ensures { subject_of result ≡ stated_subject definition.now mend.now other }
{
    match mend {
        Mend::Expression(_) => Topic::Replaceable(definition, Way::Expression(other)),
        Mend::Pattern(_) => Topic::Replaceable(definition, Way::Pattern(other)),
        Mend::Exchange(_, _) => Topic::Replaceable(definition, Way::Exchange(other)),
        Mend::Removal(_) => Topic::Replaceable(definition, Way::Removal(other)),
        Mend::Sides(_, _) => Topic::Replaceable(definition, Way::Sides(other)),
        Mend::Patterns(_, _) => Topic::Replaceable(definition, Way::Patterns(other)),
        Mend::Insertion(insertion, _) => {
            Topic::Replaceable(definition, insertion_way(*insertion, other))
        }
        Mend::Wrapped(name, _) => Topic::Wrapped(definition, name, other),
    }
}

/// Returns the numbers of arguments before and after a change, if it leaves an argument out or adds one, and they are found. Returns `None` if memory
/// doesn't suffice.
pub(crate) fn counts_of(alloc: Global, source: &[u8], mend: &Mend<'_>) -> Option<Arguments>
    requires { HasPartsIn source.now mend.now }
    ensures { IfSome result (λ a. AreCounts source.now mend.now (string_bytes a.function) a.here a.then) }
{
    let found = match mend {
        Mend::Removal(part) => arguments_without(alloc, source, *part),
        Mend::Insertion(Insertion::Argument, part) => {
            arguments_with_one_more(alloc, source, *part)
        }
        _ => return None,
    };
    match found {
        Ok(counts) => counts,
        Err(AllocError) => None,
    }
}

/// Returns the topic of a change that gives the definition a type, with this as the other place, and with the numbers of arguments, if there are any.
pub(crate) fn topic_of<'a>(
    definition: &'a str,
    mend: &Mend<'a>,
    counts: &'a Option<Arguments>,
    other: Place,
) -> Topic<'a>
    ensures { (source : List ℕ) → IfSome counts.now (λ a. AreCounts source mend.now (string_bytes a.function) a.here a.then)
        → IsSubjectOf source definition.now mend.now other (subject_of result) }
{
    let Some(counts) = counts else {
        return way_of(definition, mend, other);
    };
    let counts = ArgumentCounts {
        function: counts.function.as_str(),
        here: counts.here,
        then: counts.then,
        end: other,
    };
    match mend {
        Mend::Removal(_) => Topic::TooManyArguments(definition, counts),
        Mend::Insertion(insertion, _) => match insertion {
            Insertion::Argument => Topic::TooFewArguments(definition, counts),
            _ => way_of(definition, mend, other),
        },
        _ => way_of(definition, mend, other),
    }
}
