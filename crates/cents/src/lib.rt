//! Whole cents: rounding, and cutting an amount over weights.
#![tactic(auto)]

pub mod cutting;
pub mod rounding;
pub mod totals;
pub mod weights;
