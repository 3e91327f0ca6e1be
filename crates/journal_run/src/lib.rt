//! A journal from its text to what it prints: its orders, their run on one ledger, and the sums.
#![tactic(auto)]

pub mod answer;
mod given;
mod orders;
mod printing;
mod run_result;
mod running;
mod sums;
mod text;
