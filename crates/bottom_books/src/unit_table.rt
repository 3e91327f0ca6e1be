//! Units, member by member: what all three books have in them.
mod calls;

ghost use Rattle.std.specs.Prelude.{◌≡◌, ◌≤◌, length};
ghost use Rattle.bottom_books.specs.Tables.{UnitsInRange};
ghost use Rattle.limits.specs.declared.TheConstants.{FIRST_MONTH, LAST_MONTH, MOST_MEMBERS};

use limits::MOST_MEMBERS;

/// A month, a count of members, and a row of seven kinds for each. There is a row for each of the
/// most members, 200, and the count says how many of them are in use.
#[derive(Clone, Copy)]
pub struct UnitTable {
    pub(crate) month: u32,
    pub(crate) count: u32,
    pub(crate) rows: [[u32; 7]; MOST_MEMBERS],
    ghost month_in_range: { (FIRST_MONTH ≤ month) × (month ≤ LAST_MONTH) },
    ghost count_in_range: { (1 ≤ count) × (count ≤ MOST_MEMBERS) },
    ghost long: { length rows ≡ MOST_MEMBERS },
    ghost small: { UnitsInRange rows },
}
