//! The result of a check.
ghost use Rattle.std.specs.Prelude.{◌≡◌};
ghost use Rattle.hm_service_places.specs.Spelling.{spelling_of};

use crate::spelled::Spelled;
use hm_build_stages::Finished;
use hm_service_messages::Told;
use hm_service_sources::HeldSource;

/// The result of a check of a held set. Sources are named by their numbers in the set. The type guarantees that the build is of the modules that these
/// texts spell.
#[derive(Drop)]
pub struct Checked {
    /// The numbers of the sources that can be checked, ascending.
    pub part: Vec<usize>,
    /// The texts that stand for them.
    pub texts: Vec<Vec<u8>>,
    /// The messages of a run of the sources that can't be read, if there are any: their first faults.
    pub unread: Option<Told>,
    /// The messages of a run of the texts that stand for all sources, if they are no lawful set.
    pub refused: Option<Told>,
    /// The messages of a run of the sources that can be checked.
    pub told: Told,
    /// The build of these sources.
    pub build: Finished,
    /// The guarantee that the build is of the modules that these texts spell.
    pub spelled: Spelled,
    pub ghost counted: { spelled ≡ spelling_of texts build },
}

/// A held set with a check of it, and the number of workers for the check of the set that a change makes.
#[derive(Clone, Copy)]
pub struct CheckedSet<'a> {
    pub held: &'a [HeldSource],
    pub checked: &'a Checked,
    pub workers: usize,
}
