//! Sharing a pool among the members by their units.
#![tactic(auto)]

pub mod bounds;
pub mod domain;
pub mod name;
pub mod posted;
pub mod ratio;
pub mod rule;
pub mod writing;
