//! The uses of names in the modules of a set.
ghost use Rattle.std.specs.Prelude.{◌≡◌, ◌++◌, OnOk, map};
ghost use Rattle.hm_uses_references.specs.SetNames.{name_in};

use hm_uses_declarations::Use;
use std::alloc::AllocError;
use std::marker::Model;

/// A use of a name in a module of a set.
#[derive(Drop)]
pub struct SetUse<'a> {
    pub(crate) number: usize,
    pub(crate) source: usize,
    pub(crate) used: Use<'a>,
}

impl<'a> Model for SetUse<'a> {
    ghost use Rattle.hm_uses_references.specs.SetNames.{SetName, name_in};

    ghost Value = { SetName };

    ghost view = { λ n. name_in n.number n.source n.used };
}

impl<'a> SetUse<'a> {
    /// Returns the use of a name in the module with this number, which is in the source with this number.
    pub fn new(number: usize, source: usize, used: Use<'a>) -> SetUse<'a>
        ensures { result ≡ name_in number source used.entry }
    {
        SetUse {
            number,
            source,
            used,
        }
    }

    /// Returns the number of the module.
    pub fn number(&self) -> usize
        ensures { result ≡ self.now.number }
    {
        self.number
    }

    /// Returns the number of the source.
    pub fn source(&self) -> usize
        ensures { result ≡ self.now.source }
    {
        self.source
    }

    /// Returns the use of the name in its module.
    pub fn used(&self) -> &Use<'a>
        ensures { result.now ≡ self.now.used }
    {
        &self.used
    }
}

/// Appends the uses of names in the module with this number, which is in the source with this number.
///
/// # Errors
///
/// If memory runs out.
pub fn add_uses<'a>(
    names: &mut Vec<SetUse<'a>>,
    number: usize,
    source: usize,
    uses: Vec<Use<'a>>,
) -> Result<(), AllocError>
    ensures { OnOk result (names.new.items ≡ names.old.items ++ map (name_in number source) uses.entry.items) }
{
    'uses: for used in uses {
        names.push(SetUse::new(number, source, used))?;
    }
    Ok(())
}
