//! A FERC year: its rate, how many of its months are billed, and the cents billed.
mod calls;

ghost use Rattle.std.specs.Prelude.{◌≡◌, ◌*◌, ◌≤◌, unsigned_abs};
ghost use Rattle.limits.specs.declared.TheConstants.{MOST_MEMBERS, MOST_UNITS};
ghost use Rattle.ferc.specs.declared.rate.TheConstants.{MOST_RATE};
ghost use Rattle.ferc.specs.declared.year.TheConstants.{MOST_MONTHS};

/// How many months a year bills.
pub const MOST_MONTHS: u32 = 12;

/// A year. It bills at most twelve months, and is one value: a copy would bill twelve more, so it
/// cannot be copied.
#[derive(Drop)]
pub struct FercYear {
    rate: i64,
    months: u32,
    billed: i64,
    ghost rated: { unsigned_abs rate ≤ MOST_RATE },
    ghost few: { months ≤ MOST_MONTHS },
    ghost small: { unsigned_abs billed ≤ MOST_MEMBERS * (MOST_RATE * MOST_UNITS) * months },
}

impl FercYear {
    /// The year's rate.
    pub fn rate(&self) -> i64
        ensures { result ≡ self.now.rate }
    {
        self.rate
    }

    /// How many months are billed.
    pub fn months(&self) -> u32
        ensures { result ≡ self.now.months }
    {
        self.months
    }

    /// The cents billed so far.
    pub fn billed(&self) -> i64
        ensures { result ≡ self.now.billed }
    {
        self.billed
    }
}
