//! The special constructors (Report, section 3).

ghost use Rattle.std.specs.Prelude.{◌≡◌, Some, None, ◌==◌, if◌then◌else◌, option_map};
ghost use Rattle.hm_names.specs.Special.{special_arity, tuple_of};

/// Returns the number of components of a tuple constructor, or `None` for another text.
pub fn tuple_arity(text: &[u8]) -> Option<usize>
    ensures { result ≡ option_map special_arity (tuple_of text.now) }
{
    let len = text.len();
    if len < 2 || text[0] != b'(' || text[1] != b',' {
        return None;
    }
    for i in 2..len {
        if i + 1 == len {
            return last_arity(text[i], i);
        }
        if text[i] != b',' {
            return None;
        }
    }
    None
}

/// Returns the number of components of a tuple constructor that ends with this byte.
fn last_arity(last: u8, arity: usize) -> Option<usize>
    ensures { result ≡ (if last == 41 then Some arity else None) }
{
    if last == b')' { Some(arity) } else { None }
}
