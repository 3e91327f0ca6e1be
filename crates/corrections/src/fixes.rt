//! The corrected pairs of kind and member, each with its corrected units; at most 64.
mod calls;

ghost use Rattle.std.specs.Prelude.{◌≡◌, ◌≤◌, length, take};
ghost use Rattle.corrections.specs.Fixes.{Distinct, FixesInRange};
ghost use Rattle.std.proofs.Props.{props};
ghost use Rattle.limits.specs.declared.TheConstants.{MOST_PAIRS};

use crate::pair::Pair;
use limits::MOST_PAIRS;

/// One pair's corrected units.
#[derive(Clone, Copy)]
pub struct Fix {
    pub pair: Pair,
    pub units: u32,
}

/// The pairs that were corrected, in the order of their first correction. There is a place for each of
/// the most pairs that a layer keeps, 64, and `used` says how many of them are in use.
#[derive(Clone, Copy)]
pub struct Fixes {
    pub(crate) used: usize,
    pub(crate) list: [Fix; MOST_PAIRS],
    ghost room: { used ≤ MOST_PAIRS },
    ghost long: { length list ≡ MOST_PAIRS },
    ghost small: { FixesInRange list },
    ghost distinct: { Distinct (take used list) } by { Prim.hlevel props },
}
