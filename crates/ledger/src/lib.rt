//! The ledger: it books costs, bills months, and resettles months on file.
#![tactic(auto)]

pub mod account;
pub mod accounts;
mod billing;
mod changes;
mod checks;
pub mod ledger;
pub mod line;
mod resettlement;
mod resettling;
mod rows;
pub mod unbooked;
