//! A third rule and a use of any rule, to show that the sharing rules are open.
#![tactic(auto)]

pub mod exact;
pub mod uses;
