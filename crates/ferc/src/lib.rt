//! The FERC annual charge: a year's rate, and the charges of its months.
#![tactic(auto)]

pub mod rate;
pub mod year;
