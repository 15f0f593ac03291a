//! Names as sources write them.
ghost use Rattle.std.specs.Prelude.{◌≡◌, IfSome, option_map};
ghost use Rattle.hm_names.specs.Faults.Phases.{written_in};

/// Returns the part of a name after a qualifier and its dot, if the name has this qualifier. Without a qualifier it returns the whole name.
pub(crate) fn after_qualifier<'n>(name: &'n str, qualifier: Option<&str>) -> Option<&'n str>
    ensures { IfSome result (λ text. name.entry.now ≡ written_in (option_map (λ q. q.now) qualifier.entry) text.now) }
{
    match qualifier {
        None => Some(name),
        Some(qualifier) => name.strip_prefix(qualifier)?.strip_prefix("."),
    }
}
