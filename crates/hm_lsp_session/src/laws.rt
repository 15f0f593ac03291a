//! Worked examples. Each is a function with an empty body, and its contract states the example.
ghost use Rattle.hm_lsp_session.specs.Worked.{CancelRow, CapabilitiesRow, ChangesRow, DecisionsRow, FilesRow, FoldersRow, UnitsRow, WatchingRow};

/// What a server does with a message.
#[tactic(auto, using(crate::proofs::WorkedDecisions::worked_decisions))]
pub fn worked_decisions()
    ensures { DecisionsRow }
{}

/// The changes of a message, and the files that one names.
#[tactic(auto, using(crate::proofs::WorkedChanges::worked_changes, crate::proofs::WorkedChanges::worked_files))]
pub fn worked_changes()
    ensures changes { ChangesRow }
    ensures files { FilesRow }
{}

/// The folders that a client opens.
#[tactic(auto, using(crate::proofs::WorkedFolders::worked_folders))]
pub fn worked_folders()
    ensures { FoldersRow }
{}

/// The request that a message cancels.
#[tactic(auto, using(crate::proofs::WorkedCancels::worked_cancel))]
pub fn worked_cancels()
    ensures { CancelRow }
{}

/// The units that a client offers.
#[tactic(auto, using(crate::proofs::WorkedUnits::worked_units))]
pub fn worked_units()
    ensures { UnitsRow }
{}

/// The capabilities that a server lists, and a client that watches files.
#[tactic(auto, using(crate::proofs::WorkedCapabilities::worked_capabilities, crate::proofs::WorkedCapabilities::worked_watching))]
pub fn worked_capabilities()
    ensures capabilities { CapabilitiesRow }
    ensures watching { WatchingRow }
{}
