//! A kind and a member, whose units are corrected together.

/// A kind, 1 to 7 (0 in a blank place), and a member's place, counted from 0.
#[derive(Clone, Copy, PartialEq, Eq, Debug)]
pub struct Pair {
    pub kind: u32,
    pub member: u32,
}
