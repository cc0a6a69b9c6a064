//! The 32-byte labels of the Compact System: made by value, and read as borrowed parts.
#![tactic(auto)]

pub mod characters;
pub mod contents;
pub mod fields;
pub mod kind;
pub mod label;
pub mod laws;
pub mod parts;
pub mod read;
#[cfg(test)]
mod tests;
