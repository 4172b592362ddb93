//! The plain form of terms and formulas, read byte by byte.
pub mod digits;
pub mod laws;
pub mod read;
pub mod reader;
