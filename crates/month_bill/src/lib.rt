//! A month from its text to its printed charges, billed by a new ledger: every balance before it is 0.
#![tactic(auto)]

pub mod answer;
pub mod bill;
pub mod costs;
pub mod members;
