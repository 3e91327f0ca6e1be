//! The reader of a journal: bills and resettlements of one ledger, each with its month's text.
#![tactic(auto)]

pub mod entry;
mod entry_lines;
mod pieces;
pub mod reader;
mod terms;
pub mod unread;
