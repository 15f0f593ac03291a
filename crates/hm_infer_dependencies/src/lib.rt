//! The graph of a declaration list: its nodes, their references, and the declarations of each (Haskell 98 Report, section 4.5.1).
#![tactic(auto)]

mod edges;
mod faults;
mod hiding;
pub mod laws;
mod members;
mod nodes;
mod numbers;
mod places;
mod references;
mod signed;

pub use crate::edges::graph_of;
pub use crate::faults::GroupFault;
pub use crate::hiding::is_continued;
pub use crate::members::{Member, group_members};
pub use crate::nodes::{NodeList, node_list};
pub use crate::numbers::Numbers;
pub use crate::places::rows_of;
pub use crate::references::referred_nodes;
pub use crate::signed::signed_texts;
