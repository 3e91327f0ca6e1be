//! Making a year, and billing its months.
ghost use Rattle.std.specs.Prelude.{◌≡◌, ◌*◌, ◌≤◌, [], length, pos, MatchResult, OnOk, OnErr, unsigned_abs};
ghost use Rattle.refusal.specs.Answers.{answer, bare, done};
ghost use Rattle.cents.specs.Cutting.{sum_z};
ghost use Rattle.ferc.specs.Rates.{figures_rule};
ghost use Rattle.ferc.specs.Years.{month_rule, charge_of, charges, IsBilled, AddsUp, StillAddsUp};
ghost use Rattle.limits.specs.declared.TheConstants.{MOST_MEMBERS, MOST_UNITS};
ghost use Rattle.ferc.specs.declared.rate.TheConstants.{MOST_RATE};

use crate::rate::YearFigures;
use crate::year::{FercYear, MOST_MONTHS};
use book::book::Book;
use cents::rounding::nearest_cents;
use cents::totals::sum_of;
use refusal::{Fault, Layer, Refusal};

/// A member's charge of a month at a rate.
fn charge(rate: i64, units: u32) -> i64
    requires { unsigned_abs rate * units ≤ MOST_RATE * MOST_UNITS }
    ensures { result ≡ charge_of rate units }
{
    nearest_cents(rate * i64::from(units))
}

/// The cents of a month's statement.
fn month_cents(statement: &[i64]) -> i64
    requires { unsigned_abs (sum_z statement.now) ≤ MOST_MEMBERS * (MOST_RATE * MOST_UNITS) }
    ensures value { result ≡ sum_z statement.now }
    ensures small { unsigned_abs result ≤ MOST_MEMBERS * (MOST_RATE * MOST_UNITS) }
{
    sum_of(statement) as i64
}

impl FercYear {
    /// A year without charges: the place in which a year is made.
    pub fn blank() -> FercYear
        ensures { (result.rate ≡ pos 0) × (result.months ≡ 0) × (result.billed ≡ pos 0) }
    {
        FercYear {
            rate: 0,
            months: 0,
            billed: 0,
        }
    }

    /// Makes a year with nothing billed; refused, it is as it was.
    pub fn make(&mut self, figures: YearFigures) -> Result<(), Fault>
        ensures answered { answer result ≡ bare (figures_rule figures) }
        ensures after { MatchResult result (λ _. (figures_rule figures ≡ done self.new.rate) × AddsUp [] self.new) (λ _. self.new ≡ self.old) }
    {
        let rate = figures.rate()?;
        *self = FercYear {
            rate,
            months: 0,
            billed: 0,
        };
        Ok(())
    }

    /// Writes every member's charge.
    fn write_charges<B: Book>(&self, book: &B, statement: &mut [i64]) -> Result<(), Fault>
        requires { length statement.old ≡ B.count book.now }
        ensures answered { answer result ≡ done tt }
        ensures cells { statement.new ≡ charges self.now.rate (B.units book.now) 0 (B.count book.now) }
    {
        for (i, cell) in statement.iter_mut().enumerate() {
            let units = book.units(1, i as u32)?;
            *cell = charge(self.rate, units);
        }
        Ok(())
    }

    /// Bills a month: one cell for each member of the book. Refused, nothing changes.
    pub fn bill<B: Book>(&mut self, book: &B, statement: &mut [i64]) -> Result<(), Fault>
        ensures answered { answer result ≡ month_rule self.old.months (length statement.old) (B.count book.now) }
        ensures done { OnOk result (IsBilled self.old (B.units book.now) (B.count book.now) self.new statement.new) }
        ensures unchanged { OnErr result ((self.new ≡ self.old) × (statement.new ≡ statement.old)) }
        ensures year { StillAddsUp result self.old self.new statement.new }
    {
        if statement.len() != book.members() as usize {
            return Err(Layer::Ferc.refuses(Refusal::Length));
        }
        if self.months >= MOST_MONTHS {
            return Err(Layer::Ferc.refuses(Refusal::Year));
        }
        self.write_charges(book, statement)?;
        self.months += 1;
        self.billed += month_cents(statement);
        Ok(())
    }
}
