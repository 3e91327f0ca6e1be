//! The limits of a month, a member and an amount: each stands here once, with its unit, and is called by
//! its name elsewhere.
#![tactic(auto)]

ghost use Rattle.std.specs.Prelude.{◌≡◌};
ghost use Rattle.limits.specs.Ranges.{month_lawful, count_lawful};

/// The first month: February 2023. A month is year × 12 + month of the year − 1.
pub const FIRST_MONTH: u32 = 24_277;

/// The last month: December 2999.
pub const LAST_MONTH: u32 = 35_999;

/// How many of the months billed last are on file.
pub const MONTHS_ON_FILE: usize = 6;

/// The most members of a ledger, a book and a statement.
pub const MOST_MEMBERS: usize = 200;

/// The most members of a month's text.
pub const MOST_TEXT_MEMBERS: usize = 32;

/// The most bytes of a month's text.
pub const MOST_TEXT_BYTES: usize = 16_384;

/// The largest account number of a member.
pub const MOST_ACCOUNT: u32 = 999_999;

/// The most that one fact of a member may be, in the fact's own unit.
pub const MOST_FACT: u32 = 100_000_000;

/// The most units of a kind: of one member, of all members together, and in a correction, either way.
pub const MOST_UNITS: u64 = 2_000_000_000;

/// The most cents of a head of cost, a pool and a balance, either way.
pub const MOST_CENTS: u64 = 4_000_000_000;

/// The most cents of a component's cost, either way: three heads' worth.
pub const MOST_COST: u64 = 12_000_000_000;

/// The most cents of a voucher's control total, either way: six heads together.
pub const MOST_CONTROL: u64 = 24_000_000_000;

/// The most cents in a line of the month file that is resettled, either way.
pub const MOST_LINE_CENTS: u64 = 6_000_000_000;

/// The most cents that some members bear together, either way, beside one cent for each of them.
pub const MOST_SHARED: u64 = 5_000_000_000;

/// The most megawatts that stand for a period.
pub const MOST_MEGAWATTS: u32 = 1_000_000;

/// The most hours of a month.
pub const MOST_HOURS: u32 = 745;

/// The most days of a month.
pub const MOST_DAYS: u32 = 31;

/// The most pairs of kind and member that one layer of corrections keeps.
pub const MOST_PAIRS: usize = 64;

/// Whether a month is one that can be billed.
pub fn month_lawful(month: u32) -> bool
    ensures { result ≡ month_lawful month }
{
    (FIRST_MONTH..=LAST_MONTH).contains(&month)
}

/// Whether a ledger, a book or a statement may have so many members.
pub fn count_lawful(members: usize) -> bool
    ensures { result ≡ count_lawful members }
{
    (1..=MOST_MEMBERS).contains(&members)
}
