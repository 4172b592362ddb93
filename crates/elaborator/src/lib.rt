//! The commands of the search under a definition: `check` and `elaborate`.
#![tactic(auto)]

pub mod check;
pub mod elaborate;
pub mod laws;
