//! The rate of a FERC year, in hundredths of a cent for a megawatt-hour.
ghost use Rattle.std.specs.Prelude.{◌≡◌, ◌*◌, ◌≤◌, true, unsigned_abs};
ghost use Rattle.refusal.specs.Answers.{answer};
ghost use Rattle.ferc.specs.Rates.{cost_lawful, year_cost, rate_of, figures_rule};

use cents::rounding::nearest;
use refusal::{Fault, Layer, Refusal};

/// No charge of a year is beyond this, in cents on either side of 0.
pub const MOST_CHARGE: u64 = 40_000_000_000;

/// No volume of a year is above this, in megawatt-hours.
pub const MOST_VOLUME: u64 = 20_000_000_000;

/// No rate is beyond this, in hundredths of a cent on either side of 0.
pub const MOST_RATE: u64 = 1_000_000;

/// The figures of a year: this year's estimated charge, the charge paid for the prior year and its
/// recovery, in cents, and the volume in megawatt-hours.
#[derive(Clone, Copy)]
pub struct YearFigures {
    pub estimate: i64,
    pub paid: i64,
    pub recovered: i64,
    pub volume: u64,
}

/// The rate of a cost over a volume.
fn rate_of(cost: i64, volume: u64) -> i64
    requires { unsigned_abs cost ≤ 3 * MOST_CHARGE }
    ensures { result ≡ rate_of cost volume }
{
    nearest(100 * cost, volume)
}

impl YearFigures {
    /// Whether each of the three charges is in range.
    fn costs_lawful(&self) -> bool
        ensures { result ≡ cost_lawful self.now.estimate self.now.paid self.now.recovered }
    {
        [self.estimate, self.paid, self.recovered]
            .iter()
            .all(|cents| cents.unsigned_abs() <= MOST_CHARGE)
    }

    /// The cost: this year's estimate, and what was paid for the prior year less its recovery.
    fn cost(&self) -> i64
        requires { cost_lawful self.now.estimate self.now.paid self.now.recovered ≡ true }
        ensures value { result ≡ year_cost self.now.estimate self.now.paid self.now.recovered }
        ensures small { unsigned_abs result ≤ 3 * MOST_CHARGE }
    {
        self.estimate + self.paid - self.recovered
    }

    /// The rate; refused where a figure is out of range, there is no volume, or the rate itself is
    /// out of range.
    pub fn rate(&self) -> Result<i64, Fault>
        ensures { answer result ≡ figures_rule self.now }
    {
        if !self.costs_lawful() {
            return Err(Layer::Ferc.refuses(Refusal::Range));
        }
        if self.volume > MOST_VOLUME {
            return Err(Layer::Ferc.refuses(Refusal::Range));
        }
        if self.volume == 0 {
            return Err(Layer::Ferc.refuses(Refusal::Rate));
        }
        let rate = rate_of(self.cost(), self.volume);
        if rate.unsigned_abs() > MOST_RATE {
            return Err(Layer::Ferc.refuses(Refusal::Rate));
        }
        Ok(rate)
    }
}
