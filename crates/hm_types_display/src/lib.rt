//! The texts of types and schemes in the notation of the Haskell 98 Report, and of interfaces.
#![tactic(auto)]

mod interface_lines;
mod printing;

pub use interface_lines::interface_text;
pub use printing::scheme_text;
