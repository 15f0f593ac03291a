//! Laws of lists of publications. Each law is a function with an empty body, and its contract is the law.
ghost use Rattle.hm_store_published.specs.Worked.{ListsRow, NumbersRow};

/// Worked examples of lists that are lawful, and of lists that aren't.
pub fn worked_lists()
    ensures lists { ListsRow }
    ensures numbers { NumbersRow }
{}
