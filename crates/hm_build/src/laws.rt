//! Laws of what a run prints. Each law is a function with an empty body, and its contract is the law.
ghost use Rattle.hm_build.specs.Laws.{HasOneReport, HasOneStatus, IsNotCheckedAndRefused, SettledSetIsRun};
ghost use Rattle.hm_build.specs.Worked.{JournalRow, NothingRow, OutputRow, RoomRow, VerdictsRow};

/// Sources have one status and, unless they are refused, one report. Only the place of a syntax fault isn't determined.
pub fn one_run()
    ensures text { HasOneReport }
    ensures not_both { IsNotCheckedAndRefused }
    ensures status { HasOneStatus }
{}

/// If a lawful set of modules is settled, its report and its status are those of a run.
pub fn settled_sets_are_runs()
    ensures { SettledSetIsRun }
{}

/// Worked examples: the text of a journal and its build; which modules of a set are published; a run without sources and its output; the room of workers.
pub fn worked_runs()
    ensures journal { JournalRow }
    ensures verdicts { VerdictsRow }
    ensures nothing { NothingRow }
    ensures output { OutputRow }
    ensures room { RoomRow }
{}
