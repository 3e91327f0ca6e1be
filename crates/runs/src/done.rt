//! How an accepted order ended.
use statement::charge::ComponentCharge;

/// What an order that was not refused came to.
#[derive(Clone, Copy)]
pub enum Done {
    Booked,
    /// Billed, with each component's pool, units and balance.
    Billed([ComponentCharge; 13]),
    Resettled,
}
