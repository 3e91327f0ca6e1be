//! The texts that answer a month's text: a month's charges, or the line of a refusal.
#![tactic(auto)]

pub mod charges;
mod lines;
pub mod printer;
pub mod refusals;
