//! Worked examples of the objects, in a function with an empty body, whose contract has them.
ghost use Rattle.hm_build_objects.specs.Worked.{LineRow, RunsRow, TypeTextsRow};

/// Worked examples: the texts of types as a module writes them, each run of a name once, and the object of a skipped module.
pub fn worked_objects()
    ensures type_texts { TypeTextsRow }
    ensures runs { RunsRow }
    ensures line { LineRow }
{}
