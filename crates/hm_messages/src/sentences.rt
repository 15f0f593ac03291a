//! The rule that a fault breaks.
ghost use Rattle.std.specs.Prelude.{◌≡◌};
ghost use Rattle.hm_messages.specs.Sentences.{fault_sentence, types_sentence};

use hm_names::Kind;

/// Returns the line that explains a kind of fault.
pub(crate) fn fault_sentence(kind: Kind) -> &'static str
    ensures { result.now ≡ fault_sentence kind }
{
    match kind {
        Kind::NotExported =>
            "The imported module doesn't export this name, or not as a constructor of this type.\n",
        Kind::Duplicate =>
            "A name has one declaration, one signature and one parameter in a list; the clauses of a function must stand together.\n",
        Kind::NoBinding =>
            "A variable with a signature needs clauses in the same list; a variable of a pattern can't have a signature.\n",
        Kind::Unbound => "No declaration, import or parameter gives this name a meaning here.\n",
        Kind::Ambiguous =>
            "Several things in scope have this name. Write a qualifier that only one has, or hide the others in their imports.\n",
        Kind::ExportClash => "An export list gives each name to one thing.\n",
        Kind::NotImported =>
            "`module N` in an export list exports what the imports called N give.\n",
        Kind::NonLinear =>
            "The patterns of one clause, lambda, alternative or binding have each variable once.\n",
        Kind::Arity =>
            "A type, synonym or constructor takes as many arguments as its declaration gives it.\n",
        Kind::ClauseLength => "Each clause of a function has as many patterns as the first one.\n",
        Kind::Untyped =>
            "No types fit this definition and those that refer back to it. All others that it refers to have types or signatures.\n",
        Kind::Recursive =>
            "A synonym is replaced by its right side, so that would never end; use `data` or `newtype`.\n",
    }
}

/// Returns the line that explains two types, if no type is both because it would contain itself.
pub(crate) fn types_sentence(infinite: bool) -> &'static str
    ensures { result.now ≡ types_sentence infinite }
{
    if infinite {
        "No type is both: it would contain itself, and so be infinite.\n"
    } else {
        ""
    }
}
