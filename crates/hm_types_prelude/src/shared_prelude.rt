//! Prelude's interface, for all modules of a set.
ghost use Rattle.std.specs.Prelude.{◌≡◌};
ghost use Rattle.std.specs.Arc.{arc_value};
ghost use Rattle.hm_types.specs.StandardPrelude.{prelude_interface};

use crate::standard_prelude::prelude;
use hm_types::Interface;
use std::alloc::{AllocError, Global};
use std::sync::Arc;

/// Prelude's interface, made once and shared by all checks.
#[derive(Drop)]
pub struct SharedPrelude {
    interface: Arc<Interface>,
    ghost is: { arc_value interface ≡ prelude_interface },
}

impl SharedPrelude {
    /// Makes the interface.
    pub fn new(alloc: Global) -> Result<SharedPrelude, AllocError> {
        let interface = Arc::new(alloc, prelude(alloc)?)?;
        Ok(SharedPrelude { interface })
    }

    /// Returns the interface.
    pub fn interface(&self) -> &Arc<Interface>
        ensures { arc_value result.now ≡ prelude_interface }
    {
        &self.interface
    }
}
