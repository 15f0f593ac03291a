//! Which names a query finds.
ghost use Rattle.std.specs.Prelude.{◌≡◌};
ghost use Rattle.hm_lsp_results.specs.Matches.{is_match};

/// Returns whether the letters of a query are in a name in their order, whatever their case.
pub(crate) fn is_match(query: &str, name: &str) -> bool
    ensures { result ≡ is_match query.now name.now }
{
    let (query, name) = (query.as_bytes(), name.as_bytes());
    let mut found = 0;
    'letters: for letter in name {
        if found >= query.len() {
            return true;
        }
        if letter.eq_ignore_ascii_case(&query[found]) {
            found += 1;
        }
    }
    if found < query.len() {
        return false;
    }
    true
}
