//! Finished builds with the texts of their sources.
use hm_build_stages::Finished;

/// A finished build and the texts of its sources, from which a later build may take what hasn't changed.
#[derive(Clone, Copy)]
pub struct Earlier<'a> {
    pub texts: &'a [Vec<u8>],
    pub build: &'a Finished,
}
