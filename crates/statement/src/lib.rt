//! A month's statement: every component's pool shared over the members by their units.
#![tactic(auto)]

pub mod charge;
mod checks;
pub mod component;
pub mod kind;
pub mod month;
pub mod reading;
mod usage;
