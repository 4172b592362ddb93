//! LKF as a calculus of the search: its table of goal lists, and guided derivations.
#![tactic(auto)]

mod choices;
pub mod laws;
mod lkf;
mod sequent;
mod table;

pub use lkf::Lkf;
pub use sequent::Sequent;
