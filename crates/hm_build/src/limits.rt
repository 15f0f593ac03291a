//! Limits for the sizes of types in a build.
use hm_names::TypeLimits;
use hm_run_sources::Nesting;

/// The number of nodes that the types of all modules may share, for sources of any length.
const NODES_OF_ALL: usize = 1 << 19;

/// Further nodes for all modules, for each byte of the longest source.
const NODES_OF_ALL_PER_BYTE: usize = 160;

/// The least limit for the types of one module, for any number of modules.
const LEAST_NODES: usize = 1 << 15;

/// Further nodes for one module, for each byte of the longest source.
const LEAST_NODES_PER_BYTE: usize = 16;

/// Returns `number + bytes * per_byte`, or `usize::MAX` if that is larger.
fn more_by(number: usize, bytes: usize, per_byte: usize) -> usize {
    bytes.saturating_mul(per_byte).saturating_add(number)
}

// Why: docs/DECISIONS.md, "Nodes of types".
/// Returns the limits for the types of each module: its share of the nodes of all, but at least the least limit.
pub(crate) fn type_limits(nesting: Nesting, modules: usize) -> TypeLimits {
    let bytes = nesting.longest();
    let all = more_by(NODES_OF_ALL, bytes, NODES_OF_ALL_PER_BYTE);
    let least = more_by(LEAST_NODES, bytes, LEAST_NODES_PER_BYTE);
    let share = if modules < 2 { all } else { all / modules };
    TypeLimits {
        levels: nesting.depth_limit(),
        nodes: share.max(least),
    }
}
