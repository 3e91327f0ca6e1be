//! The tariff: the sheet of weights, the six heads of cost, and the thirteen component costs.
#![tactic(auto)]

pub mod costs;
pub mod heads;
mod parts;
pub mod settlement;
pub mod sheet;
