//! The line transport: a tape kept as text, a line an item.
#![tactic(auto)]

pub mod line_transport;
pub mod settings;
mod text;
