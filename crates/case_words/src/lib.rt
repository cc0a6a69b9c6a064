//! What the test programs share: the usual settings, and what they say of a transport, which is its
//! answers and its status in words, and whether it is blank.
#![tactic(auto)]

pub mod answer;
pub mod blank;
pub mod settings;
pub mod status;
