//! A member's charges of a month, as they are printed.

/// What one member pays for each of the thirteen components.
#[derive(Clone, Copy)]
pub struct MemberCharge {
    pub account: u32,
    pub charges: [i64; 13],
}
