//! The tape: items, places, refusals, and the interface of a transport with its meaning.
#![tactic(auto)]

pub mod bounds;
pub mod item;
pub mod laws;
pub mod place;
pub mod refusal;
pub mod status;
pub mod transport;
