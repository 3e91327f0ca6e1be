//! The three books that have units of their own: from facts, from standing megawatts, and from a table.
#![tactic(auto)]

pub mod fact_book;
pub mod measure;
pub mod measured_book;
pub mod period;
pub mod standing;
pub mod standing_book;
pub mod table_book;
pub mod unit_table;
