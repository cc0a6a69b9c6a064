//! Figures: numbers in characters, as decimals of a fixed width and as pairs of hexadecimal digits.
#![tactic(auto)]

pub mod decimal;
pub mod hex;
