//! Worked examples. Each is a function with an empty body, whose contract is the example.
ghost use Rattle.hm_service_offers.specs.Worked.{ChangedRow, OffersRow};

/// A set in which a source has another text.
#[tactic(auto, using(crate::proofs::WorkedOffers::worked_changed))]
pub fn worked_changed()
    ensures { ChangedRow }
{}

/// Which changes are offered.
#[tactic(auto, using(crate::proofs::WorkedOffers::worked_offers))]
pub fn worked_offers()
    ensures { OffersRow }
{}
