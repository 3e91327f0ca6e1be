//! Corrections over any book.
#![tactic(auto)]

pub mod fixes;
pub mod layer;
pub mod pair;
