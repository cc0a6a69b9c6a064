//! The account of a cassette: a line for each item, totals, or the words of a refusal.
#![tactic(auto)]

pub mod account;
mod data;
mod item;
mod label;
mod lines;
mod refused;
mod told;
mod totals;
mod walk;
