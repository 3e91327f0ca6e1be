//! Books of units: what a book means, and the asks and corrections that every book answers alike.
#![tactic(auto)]

pub mod asking;
pub mod book;
