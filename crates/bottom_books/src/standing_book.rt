//! A book of megawatts that stand for its hours and days.
ghost use Rattle.std.specs.Prelude.{◌≡◌, MatchResult};
ghost use Rattle.refusal.specs.Answers.{answer, bare};
ghost use Rattle.bottom_books.specs.Standings.{standing_rule};
ghost use Rattle.bottom_books.specs.Filled.{Filled};

use crate::measured_book::MeasuredBook;
use crate::period::Period;
use crate::standing::Standing;
use refusal::{Fault, Layer, Refusal};

/// A month's units, as standing megawatts make them.
pub type StandingBook = MeasuredBook<Period>;

impl MeasuredBook<Period> {
    /// Makes the book of a month from its members' megawatts; refused, it stays as it was.
    pub fn fill(
        &mut self,
        month: u32,
        hours: u32,
        days: u32,
        members: &[Standing],
    ) -> Result<(), Fault>
        ensures answered { answer result ≡ bare (standing_rule month hours days members.now) }
        ensures after { MatchResult result
            (λ _. Filled self.new.units month members.now (standing_rule month hours days members.now))
            (λ _. self.new ≡ self.old) }
    {
        let Some(period) = Period::of(hours, days) else {
            return Err(Layer::Book.refuses(Refusal::Range));
        };
        self.units.fill(month, &period, members)
    }
}
