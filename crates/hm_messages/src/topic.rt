//! The topics of messages.
use hm_lex::Place;
use hm_messages_hints::{LexemeHint, SyntaxHint};
use hm_messages_json::Position;
use hm_messages_titles::NamedFault;
use hm_names::Kind;

/// The advice for a fault of syntax.
#[derive(Clone, Copy)]
pub struct PlacedAdvice<'a> {
    pub hint: SyntaxHint,
    /// The text of the token that the hint is about.
    pub text: &'a str,
    /// The position of that token, if it isn't the one at the fault.
    pub other: Option<Position>,
}

/// What two parts of a definition are: the one at which a note is, and the other one.
#[derive(Clone, Copy)]
pub enum Pair {
    Expressions,
    ExpressionBesidePattern,
    PatternBesideExpression,
    Patterns,
}

/// The change that gives a definition a type.
#[derive(Clone, Copy)]
pub enum Way {
    /// Another expression, up to this place.
    Expression(Place),
    /// Another pattern, up to this place.
    Pattern(Place),
    /// An exchange of the expression with the one that begins here.
    Exchange(Place),
    /// Nothing in place of the expression, up to this place.
    Removal(Place),
    /// An exchange of this side of a `:` with the one that begins here.
    Sides(Place),
    /// An exchange of the pattern with the one that begins here.
    Patterns(Place),
    /// Brackets around the expression, up to this place.
    Brackets(Place),
    /// The brackets of a list around the expression, up to this place.
    ListBrackets(Place),
    /// One more argument after the expression, which ends at this place.
    Argument(Place),
    /// A `;` before the expression.
    Semicolon,
    /// A `,` before the expression.
    Comma,
    /// Other parts, here up to the first place, and where one begins at the second.
    Both(Pair, Place, Place),
}

/// The two types of a part of a definition.
#[derive(Clone, Copy)]
pub struct BothTypes<'a> {
    /// The place of the last character of the part.
    pub end: Place,
    /// The type that is expected in place of the part.
    pub expected: &'a str,
    /// The type that the part has.
    pub actual: &'a str,
    /// Whether no type is both because it would contain itself.
    pub infinite: bool,
}

/// How many arguments a name has in an expression, and how many it has with a change that gives a definition a type.
#[derive(Clone, Copy)]
pub struct ArgumentCounts<'a> {
    /// The name that is applied, as it is written.
    pub function: &'a str,
    pub here: usize,
    pub then: usize,
    /// The place of the last character of the argument that is left out, or of the expression that gets one more.
    pub end: Place,
}

/// What a message is about. Names are as they are written.
#[derive(Clone, Copy)]
pub enum Topic<'a> {
    /// A fault of a module.
    Fault(Kind, NamedFault<'a>),
    /// A definition has a type with this change.
    Replaceable(&'a str, Way),
    /// A definition has a type with this constructor in front of an expression, which ends at this place.
    Wrapped(&'a str, &'a str, Place),
    /// A definition has a type if an argument is left out.
    TooManyArguments(&'a str, ArgumentCounts<'a>),
    /// A definition has a type with one more argument after an expression.
    TooFewArguments(&'a str, ArgumentCounts<'a>),
    /// A part of a definition has one type, and another one is expected in its place.
    Mistyped(&'a str, BothTypes<'a>),
    /// A definition has this type without its signature, which ends here.
    Unsigned(&'a str, Place, &'a str),
    /// Both definitions have types without the signature of the second, which ends here.
    Follows(&'a str, &'a str, Place),
    /// A module is skipped because it imports this one, which is faulty.
    Faulty(&'a str),
    /// A module is skipped because it imports this one, which is skipped.
    Skipped(&'a str),
    /// A source is too long.
    TooLong,
    /// No lexeme can be completed: what is there, and the operator that it is about.
    Lexeme(LexemeHint, &'a str),
    /// A comment isn't closed.
    OpenComment,
    /// Too many brackets are open.
    TooDeep,
    /// The tokens spell no modules.
    Syntax(PlacedAdvice<'a>),
    /// A set has too many modules.
    TooMany,
    /// A module has a name that is taken.
    Twice(&'a str),
    /// A module has the name of a later one.
    Twin(&'a str),
    /// An import names no module, and perhaps this one has a near name.
    Missing(&'a str, Option<&'a str>),
    /// A module reaches itself by imports.
    Cycle(&'a str),
    /// Memory ran out in the check of a module.
    Exhausted(&'a str),
    /// The trials of a run are used up, so later type faults have no notes.
    Limit,
    /// A step of a cycle: the first module imports the second.
    Step(&'a str, &'a str),
    /// A fault that the report leaves out, because names of its module aren't in scope.
    Hidden(Kind, &'a str),
    /// The first name is a type variable, and the second one that of a type in scope.
    TypeVariable(&'a str, &'a str),
    /// An import of the first name's module doesn't bring the second name into scope.
    LeftOut(&'a str, &'a str),
    /// The module with the first name declares the second one, and doesn't export it.
    Private(&'a str, &'a str),
    /// The module with the first name exports the second one, and isn't imported.
    Importable(&'a str, &'a str),
    /// A name that isn't in scope, with the type that is expected of it.
    UnboundType(&'a str, &'a str),
}
