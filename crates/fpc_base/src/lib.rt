//! The outside world as traits, in memory and for real, and what is told of bad input.
#![tactic(auto)]

pub mod memory;
pub mod outside;
pub mod real;
pub mod refusal;
pub mod steps;
pub mod tokens;
pub mod transfer;

pub use memory::{MemFiles, MemSink, MemSource};
pub use outside::{Failed, Files, OutOfMemory, Sink, Source};
pub use real::{StdFiles, StdSink, StdSource};
pub use refusal::{Code, ParseRefusal, ReadRefusal, Refusal, TokenRefusal};
pub use steps::Steps;
pub use tokens::lexeme::{Lexeme, Sign};
pub use tokens::{Token, TokenKind, Tokens};
pub use transfer::{put, read_all};
