//! Whole modules.

ghost use Rattle.std.specs.Prelude.{◌≡◌, ◌↔◌, IsTrue};

use crate::headers::is_same_header;
use crate::rows::are_same;
use hm_syntax::Module;

/// Returns whether both trees are the same, including places.
pub fn is_same_module(module: &Module, other: &Module) -> bool
    ensures { IsTrue result ↔ («module».now ≡ other.now) }
{
    is_same_header(&module.header, &other.header)
        && are_same(module.decls.as_slice(), other.decls.as_slice())
}
