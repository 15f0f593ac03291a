//! Laws of the lock and of passes.
ghost use Rattle.hm_store_shared.specs.Laws.{AnswersTakeNoCalls, ClaimsAreHeld, ClaimsFit, ClaimsTakeTheirCalls, DoneIsTheEnd, HeldAreTheirs, SeenAreAskedFor};
ghost use Rattle.hm_store_shared.specs.Worked.{BeginsRow, CallsRow, ClaimRow, HeldRow, ListingRow, PublishRow, SeenRow};

use hm_verdicts::steps_settle_a_set;

/// Under the lock: the publications that a pass has seen are a prefix of the store's, or the other way round.
pub use crate::shared::meet;

/// In a lawful set, the interfaces that a lawful list has of a module's imports are those that the module requires. So the check of a claimed
/// module isn't refused with `Imports`.
pub fn seen_imports_are_asked_for()
    ensures { SeenAreAskedFor }
{
    steps_settle_a_set();
}

/// Facts about the replies of claims, publications and failures. After a claim that got a module, the worker has claimed it by its own entries. An
/// outcome of such a module is never refused as `NotYours`. If its reply is that nothing is left, there was a stop or each module is settled.
pub fn replies_are_known()
    ensures claims { ClaimsAreHeld }
    ensures held { HeldAreTheirs }
    ensures done { DoneIsTheEnd }
{}

/// Facts about the calls that a worker's claims take: the claim, a look-up for each import, and a publication or a failure. No module is claimed
/// twice, so together they are at most those for all modules. So a pass with room for these has room for each call of its worker.
pub fn claims_fit_the_room()
    ensures taken { ClaimsTakeTheirCalls }
    ensures fits { ClaimsFit }
    ensures none { AnswersTakeNoCalls }
{}

/// Worked examples of lists: the publications of a journal, the publications that a worker has seen after a claim, the changes of a publication,
/// the outcomes that fit the list, what a worker has seen of the journal, and the calls that its claims take.
pub fn worked_listings()
    ensures listings { ListingRow }
    ensures claims { ClaimRow }
    ensures publishes { PublishRow }
    ensures seen { SeenRow }
    ensures held { HeldRow }
    ensures begins { BeginsRow }
    ensures calls { CallsRow }
{}
