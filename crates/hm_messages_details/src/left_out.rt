//! The names of the Report's Prelude that this Prelude leaves out.
ghost use Rattle.std.specs.Prelude.{◌≡◌, Contains, map, true};
ghost use Rattle.hm_messages_details.specs.LeftOut.{IsLeftOutAs, left_out_types, left_out_variables};

use crate::role::Role;

/// The types, in the order of their bytes.
const TYPES: [&str; 9] = [
    "Double", "FilePath", "Float", "IO", "IOError", "Integer", "Rational", "ReadS", "ShowS",
];

/// The variables, in the order of their bytes.
const VARIABLES: [&str; 118] = [
    "abs",
    "acos",
    "acosh",
    "appendFile",
    "asin",
    "asinh",
    "atan",
    "atan2",
    "atanh",
    "catch",
    "ceiling",
    "compare",
    "cos",
    "cosh",
    "decodeFloat",
    "div",
    "divMod",
    "elem",
    "encodeFloat",
    "enumFrom",
    "enumFromThen",
    "enumFromThenTo",
    "enumFromTo",
    "even",
    "exp",
    "exponent",
    "fail",
    "floatDigits",
    "floatRadix",
    "floatRange",
    "floor",
    "fmap",
    "fromEnum",
    "fromInteger",
    "fromIntegral",
    "fromRational",
    "gcd",
    "getChar",
    "getContents",
    "getLine",
    "interact",
    "ioError",
    "isDenormalized",
    "isIEEE",
    "isInfinite",
    "isNaN",
    "isNegativeZero",
    "lcm",
    "lex",
    "log",
    "logBase",
    "lookup",
    "mapM",
    "mapM_",
    "max",
    "maxBound",
    "maximum",
    "min",
    "minBound",
    "minimum",
    "mod",
    "negate",
    "notElem",
    "odd",
    "pi",
    "pred",
    "print",
    "product",
    "properFraction",
    "putChar",
    "putStr",
    "putStrLn",
    "quot",
    "quotRem",
    "read",
    "readFile",
    "readIO",
    "readList",
    "readLn",
    "readParen",
    "reads",
    "readsPrec",
    "realToFrac",
    "recip",
    "rem",
    "return",
    "round",
    "scaleFloat",
    "scanl1",
    "scanr1",
    "sequence",
    "sequence_",
    "show",
    "showChar",
    "showList",
    "showParen",
    "showString",
    "shows",
    "showsPrec",
    "significand",
    "signum",
    "sin",
    "sinh",
    "sqrt",
    "subtract",
    "succ",
    "sum",
    "tan",
    "tanh",
    "toEnum",
    "toInteger",
    "toRational",
    "truncate",
    "unzip3",
    "userError",
    "writeFile",
    "zip3",
    "zipWith3",
];

/// Returns the types of the Report's Prelude that this Prelude leaves out.
fn left_out_types() -> &'static [&'static str]
    ensures { map (λ s. s.now) result.now ≡ left_out_types }
{
    &TYPES
}

/// Returns the variables of the Report's Prelude that this Prelude leaves out.
fn left_out_variables() -> &'static [&'static str]
    ensures { map (λ s. s.now) result.now ≡ left_out_variables }
{
    &VARIABLES
}

/// Returns whether the text is one of the words.
fn is_one_of(words: &[&str], text: &str) -> bool
    ensures { result ≡ true → Contains (map (λ s. s.now) words.now) text.now }
{
    for at in 0..words.len() {
        if words[at] == text {
            return true;
        }
    }
    false
}

/// Returns whether this Prelude leaves a name out, and the Report's Prelude has it as what it stands for.
pub(crate) fn is_left_out(name: &str, role: Role) -> bool
    ensures { result ≡ true → IsLeftOutAs role name.now }
{
    match role {
        Role::Variable => is_one_of(left_out_variables(), name),
        Role::ExportedVariable => is_one_of(left_out_variables(), name),
        Role::TypeConstructor => is_one_of(left_out_types(), name),
        Role::Constructor => false,
        Role::TypeVariable => false,
    }
}
