//! A book of one's own, in the fewest lines: every member has the same units of every kind.
ghost use Rattle.std.specs.Prelude.{◌≡◌, ℕ, ◌≤◌, ◌&&◌, if◌then◌else◌, Some, None, nat_le};
ghost use Rattle.std.specs.Option.{option_map};
ghost use Rattle.std.proofs.Common.{rules};
ghost use Rattle.limits.specs.Ranges.{month_lawful, count_lawful};
ghost use Rattle.limits.specs.declared.TheConstants.{FIRST_MONTH, LAST_MONTH, MOST_MEMBERS, MOST_UNITS};

use book::asking::check_pair;
use book::book::Book;
use limits::{MOST_UNITS, count_lawful, month_lawful};
use refusal::Fault;

/// A month, a count of members, and the units of each of them of each kind.
#[derive(Clone, Copy)]
pub(crate) struct FlatBook {
    month: u32,
    count: u32,
    units: u32,
    ghost month_in_range: { (FIRST_MONTH ≤ month) × (month ≤ LAST_MONTH) },
    ghost count_in_range: { (1 ≤ count) × (count ≤ MOST_MEMBERS) },
    ghost units_in_range: { units ≤ MOST_UNITS },
}

impl Book for FlatBook {
    ghost month = { λ b. b.month };

    ghost count = { λ b. b.count };

    ghost units = { λ b kind member. b.units };

    ghost month_in_range = { Prim.search rules };

    ghost count_in_range = { Prim.search rules };

    ghost units_in_range = { Prim.search rules };

    fn month(&self) -> u32 {
        self.month
    }

    fn members(&self) -> u32 {
        self.count
    }

    fn units(&self, kind: u32, member: u32) -> Result<u32, Fault> {
        check_pair(self.count, kind, member)?;
        Ok(self.units)
    }
}

impl FlatBook {
    /// The book, where month, count and units are in range.
    pub(crate) fn of(month: u32, count: u32, units: u32) -> Option<FlatBook>
        ensures { option_map {U = ℕ × ℕ × ℕ} (λ b. (b.month, b.count, b.units)) result
            ≡ (if month_lawful month && count_lawful count && nat_le units MOST_UNITS then Some (month, count, units) else None) }
    {
        if !month_lawful(month) || !count_lawful(count as usize) || u64::from(units) > MOST_UNITS {
            return None;
        }
        Some(FlatBook {
            month,
            count,
            units,
        })
    }
}
