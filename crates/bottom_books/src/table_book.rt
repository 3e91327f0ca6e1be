//! A book of units as they are given; it takes every correction.
ghost use Rattle.std.specs.Prelude.{◌≡◌, true, MatchResult};
ghost use Rattle.refusal.specs.Answers.{answer, bare};
ghost use Rattle.bottom_books.specs.Given.{given_units};
ghost use Rattle.bottom_books.specs.Tables.{table_rule};
ghost use Rattle.bottom_books.specs.Filled.{Filled};
ghost use Rattle.bottom_books.specs.LawsOfMeasures.{given_small};
ghost use Rattle.std.proofs.Common.{rules};

use crate::measure::Measure;
use crate::measured_book::MeasuredBook;
use book::asking::new_units;
use book::book::Correctable;
use cents::weights::each_at_most;
use limits::MOST_UNITS;
use refusal::Fault;

/// Units as they are given.
#[derive(Clone, Copy)]
pub struct GivenUnits;

impl Measure<[u32; 7]> for GivenUnits {
    ghost reads = { λ _ row. given_units row };

    ghost small = { λ x row units e k. given_small row units e k };

    fn read(&self, row: &[u32; 7]) -> Option<[u32; 7]> {
        each_at_most(*row, MOST_UNITS as u32).then_some(*row)
    }
}

/// A month's units, as they are given.
pub type TableBook = MeasuredBook<GivenUnits>;

impl MeasuredBook<GivenUnits> {
    /// Makes the book of a month from rows of units; refused, it stays as it was.
    pub fn fill(&mut self, month: u32, rows: &[[u32; 7]]) -> Result<(), Fault>
        ensures answered { answer result ≡ bare (table_rule given_units month rows.now) }
        ensures after { MatchResult result
            (λ _. Filled self.new.units month rows.now (table_rule given_units month rows.now))
            (λ _. self.new ≡ self.old) }
    {
        self.units.fill(month, &GivenUnits, rows)
    }
}

impl Correctable for MeasuredBook<GivenUnits> {
    ghost takes = { λ _ _ _. true };

    ghost keeps = { λ _ _ _. true };

    ghost lasting = { Prim.search rules };

    fn takes(&self, _kind: u32, _member: u32) -> bool {
        true
    }

    fn correct(&mut self, kind: u32, member: u32, amount: i64) -> Result<(), Fault> {
        let units = new_units(self, kind, member, amount)?;
        self.units.put(kind, member, units);
        Ok(())
    }
}
