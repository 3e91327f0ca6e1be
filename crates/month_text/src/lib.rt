//! The reader of a month's text.
#![tactic(auto)]

mod lines;
mod members;
pub mod month;
mod numbers;
mod ranges;
pub mod reader;
