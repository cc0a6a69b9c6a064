//! The text of a line transport: a line an item, and where each track's lines lie.
#![tactic(auto)]

pub mod lines;
pub mod span;
