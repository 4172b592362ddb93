//! The determinate kernel: it checks explicit certificates step by step against the rules.
#![tactic(auto)]

mod check;
pub mod laws;
mod lkf;
mod pending;
mod play;
mod shared;
mod stack;
pub mod verify;

pub use verify::{Verdict, VerifyRefusal};
