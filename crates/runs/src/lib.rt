//! Runs: a whole list of orders carried out on a new ledger.
#![tactic(auto)]

mod carrying;
pub mod done;
pub mod order;
pub mod run;
