//! Units of use: a member's facts of a month, and the seven kinds of units that they make.
#![tactic(auto)]

pub mod facts;
