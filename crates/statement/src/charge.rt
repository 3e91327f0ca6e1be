//! What one component comes to in a month.

/// One component's pool, the units that shared it, and the balance that it leaves.
#[derive(Clone, Copy)]
pub struct ComponentCharge {
    pub pool: i64,
    pub units: u32,
    pub balance: i64,
}
