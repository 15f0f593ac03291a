//! Tests of tokens, trees, the nesting of sources, graphs, import plans, hints and edits.
#![tactic(auto)]

#[cfg(test)]
mod edits;
#[cfg(test)]
mod groups;
#[cfg(test)]
mod hints;
#[cfg(test)]
mod lexemes;
#[cfg(test)]
mod nesting;
#[cfg(test)]
mod plans;
#[cfg(test)]
mod tokens;
#[cfg(test)]
mod tree_text;
#[cfg(test)]
mod trees;
