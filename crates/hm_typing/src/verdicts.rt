//! Laws of verdicts.

ghost use Rattle.hm_typing.specs.Laws.{
  FaultsAreFound,
  FaultyWhereFaults,
  GoodIsDecided,
  GoodWhereTyped,
  HasOneVerdict,
  HasVerdict,
  IsOneOfThree,
  NotGoodAndFaulty,
  NotGoodAndSkipped,
  NotSkippedAndFaulty,
  TypedWithoutFaults,
};

/// Under closed assumptions, the type faults of a list can be found, including those of signed bindings. A list has none if and only if it is
/// typed. So a list is either good with its principal schemes or faulty with its type faults.
pub fn lists_have_verdicts()
    ensures faults_are_found { FaultsAreFound }
    ensures typed_without_faults { TypedWithoutFaults }
    ensures has_verdict { HasVerdict }
    ensures has_one_verdict { HasOneVerdict }
{}

/// A module of a lawful set is good if and only if it is well-formed, its imports are good, and its list is typed under their principal
/// assignment. It is faulty if and only if instead that list has type faults.
pub fn modules_are_judged_by_their_imports()
    ensures good_where_typed { GoodWhereTyped }
    ensures faulty_where_faults { FaultyWhereFaults }
{}

/// It is decidable whether a module of a lawful set is good. A well-formed module is exactly one of good, skipped and faulty.
pub fn modules_have_verdicts()
    ensures good_is_decided { GoodIsDecided }
    ensures one_of_three { IsOneOfThree }
    ensures not_good_and_skipped { NotGoodAndSkipped }
    ensures not_skipped_and_faulty { NotSkippedAndFaulty }
    ensures not_good_and_faulty { NotGoodAndFaulty }
{}
