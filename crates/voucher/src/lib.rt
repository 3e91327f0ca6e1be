//! Vouchers: amounts on the six heads of cost, checked against a control total.
#![tactic(auto)]

pub mod voucher;
