//! The schemes of the variables that a core imports (Haskell 98 Report, section 5.3).

ghost use Rattle.std.specs.Prelude.{◌≡◌, IfOk, OnOk, map};
ghost use Rattle.std.specs.Arc.{arc_value};
ghost use Rattle.hm_typing.specs.Assumptions.{bind};
ghost use Rattle.hm_typing.specs.Names.{global};
ghost use Rattle.hm_typing.specs.Programs.{scheme_of};
ghost use Rattle.hm_names.specs.Cores.{assumed, imported_values};
ghost use Rattle.hm_infer_context.specs.Environments.{AreAssumed, assumptions};
ghost use Rattle.hm_infer.specs.Imported.{assumed_inside};

use hm_infer_context::{Environment, entity_name};
use hm_types::{Interface, ValueEntry};
use std::alloc::{AllocError, Global};
use std::sync::Arc;

/// The number of local variables for which an environment has room at once.
const LOCAL_ROOM: usize = 32;

/// Binds a variable to its scheme.
fn assume_value<'a>(
    environment: &mut Environment<'a>,
    entry: &'a ValueEntry,
) -> Result<(), AllocError>
    ensures assumed { OnOk result (assumptions environment.new ≡ bind (global entry.now.entity) (scheme_of entry.now.scheme) (assumptions environment.old)) }
    ensures closed { OnOk result (AreAssumed 0 environment.old → AreAssumed 0 environment.new) }
{
    let name = entity_name(&entry.entity);
    environment.bind_lent(name, entry.scheme.vars(), entry.scheme.body())?;
    Ok(())
}

/// Binds variables to their schemes. The first entry is the innermost.
fn assume_values<'a>(
    environment: &mut Environment<'a>,
    values: &'a [ValueEntry],
) -> Result<(), AllocError>
    ensures assumed { OnOk result (assumptions environment.new ≡ assumed_inside values.now (assumptions environment.old)) }
    ensures closed { OnOk result (AreAssumed 0 environment.old → AreAssumed 0 environment.new) }
{
    'values: for behind in 0..values.len() {
        let place = values.len() - 1 - behind;
        assume_value(environment, &values[place])?;
    }
    Ok(())
}

/// Returns how many variables interfaces export.
fn count_of_values(interfaces: &[Arc<Interface>]) -> usize {
    let mut count: usize = 0;
    for interface in interfaces {
        count = count.saturating_add(interface.values().len());
    }
    count
}

/// Returns an environment with the variables that interfaces export, and room for `own` more and for some local ones. If an entity has several
/// entries, the first counts.
pub fn imported_environment<'a>(
    alloc: Global,
    interfaces: &'a [Arc<Interface>],
    own: usize,
) -> Result<Environment<'a>, AllocError>
    ensures assumed { IfOk result (λ environment. assumptions environment ≡ assumed (imported_values (map arc_value interfaces.now))) }
    ensures closed { IfOk result (AreAssumed 0) }
{
    let mut environment = Environment::new(alloc);
    let more = own.saturating_add(LOCAL_ROOM);
    environment.reserve(count_of_values(interfaces).saturating_add(more))?;
    'interfaces: for behind in 0..interfaces.len() {
        let place = interfaces.len() - 1 - behind;
        let interface = &interfaces[place];
        assume_values(&mut environment, interface.values())?;
    }
    Ok(environment)
}
