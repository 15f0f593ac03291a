//! Adjacent clauses of one variable are one binding (Report, section 4.4.3.1).

ghost use Rattle.std.specs.Prelude.{◌≡◌, None};
ghost use Rattle.hm_syntax.specs.Lists.{patterns};
ghost use Rattle.hm_names.specs.Faults.Lists.{opened, goes_on, has_other_length};

use hm_syntax::{Name, Pat};
use std::marker::Model;

/// The binding that the next clause may continue: its variable, and the number of patterns of its first clause.
#[derive(Drop)]
pub(crate) struct OpenBinding<'a> {
    binding: Option<(&'a str, usize)>,
}

impl<'a> Model for OpenBinding<'a> {
    ghost use Rattle.hm_names.specs.Faults.Lists.{OpenBinding as Binding};
    ghost use Rattle.hm_scope_resolve.specs.OpenBindings.{open_binding};

    ghost Value = { Binding };

    ghost view = { λ b. open_binding b.binding };
}

impl<'a> OpenBinding<'a> {
    /// Returns that no clause can continue a binding.
    pub(crate) fn none() -> OpenBinding<'a>
        ensures { result ≡ None }
    {
        OpenBinding { binding: None }
    }

    /// Returns the binding that a first clause opens.
    pub(crate) fn opened(name: &'a Name, pats: &[Pat]) -> OpenBinding<'a>
        ensures { result ≡ opened name.now (patterns pats.now) }
    {
        if pats.is_empty() {
            return OpenBinding { binding: None };
        }
        OpenBinding {
            binding: Some((name.as_str(), pats.len())),
        }
    }

    /// Returns whether a clause continues the binding.
    pub(crate) fn goes_on(&self, name: &Name, pats: &[Pat]) -> bool
        ensures { result ≡ goes_on self.now name.now (patterns pats.now) }
    {
        let Some((text, _)) = self.binding else {
            return false;
        };
        if text != name.as_str() {
            return false;
        }
        !pats.is_empty()
    }

    /// Returns whether a clause has another number of patterns than the first.
    pub(crate) fn has_other_length(&self, pats: &[Pat]) -> bool
        ensures { result ≡ has_other_length self.now (patterns pats.now) }
    {
        let Some((_, count)) = self.binding else {
            return false;
        };
        count != pats.len()
    }
}
