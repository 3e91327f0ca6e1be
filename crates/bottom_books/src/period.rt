//! The hours and days for which megawatts stand.
ghost use Rattle.std.specs.Prelude.{◌≡◌, ℕ, ◌*◌, ◌≤◌, if◌then◌else◌, Some, None};
ghost use Rattle.std.specs.Option.{option_map};
ghost use Rattle.bottom_books.specs.Standings.{period_lawful, standing_units};
ghost use Rattle.bottom_books.specs.LawsOfMeasures.{standing_small};
ghost use Rattle.limits.specs.declared.TheConstants.{MOST_DAYS, MOST_HOURS};

use crate::measure::Measure;
use crate::standing::Standing;
use limits::{MOST_DAYS, MOST_HOURS};

/// Hours from 1 to 745 and days from 1 to 31.
#[derive(Clone, Copy)]
pub struct Period {
    hours: u32,
    days: u32,
    ghost hourly: { (1 ≤ hours) × (hours ≤ MOST_HOURS) },
    ghost daily: { (1 ≤ days) × (days ≤ MOST_DAYS) },
}

impl Period {
    /// A period, where its hours and days are in range.
    pub fn of(hours: u32, days: u32) -> Option<Period>
        ensures { option_map {U = ℕ × ℕ} (λ p. (p.hours, p.days)) result ≡ (if period_lawful hours days then Some (hours, days) else None) }
    {
        if !(1..=MOST_HOURS).contains(&hours) || !(1..=MOST_DAYS).contains(&days) {
            return None;
        }
        Some(Period { hours, days })
    }
}

impl Measure<Standing> for Period {
    ghost reads = { λ p standing. standing_units p.hours p.days standing };

    ghost small = { λ x row units e k. standing_small x.hours x.days row units x.hourly.1 x.daily.1 e k };

    #[tactic(auto, using(crate::specs::LawsOfMeasures::standing_each))]
    fn read(&self, row: &Standing) -> Option<[u32; 7]> {
        if !row.lawful() {
            return None;
        }
        let units = [
            row.transmission * self.hours,
            row.ftr * self.hours,
            row.bids,
            row.energy * self.hours,
            row.segments,
            row.capacity * self.days,
            row.invoices,
        ];
        Some(units)
    }
}
