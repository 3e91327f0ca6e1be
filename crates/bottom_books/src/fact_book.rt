//! A book that is read off the members' facts.
ghost use Rattle.std.specs.Prelude.{◌≡◌, MatchResult};
ghost use Rattle.refusal.specs.Answers.{answer, bare};
ghost use Rattle.units.specs.Kinds.{units_of};
ghost use Rattle.bottom_books.specs.Tables.{table_rule};
ghost use Rattle.bottom_books.specs.Filled.{Filled};
ghost use Rattle.bottom_books.specs.LawsOfMeasures.{facts_small};

use crate::measure::Measure;
use crate::measured_book::MeasuredBook;
use refusal::Fault;
use units::facts::Facts;

/// Facts as the units that they make.
#[derive(Clone, Copy)]
pub struct FactUnits;

impl Measure<Facts> for FactUnits {
    ghost reads = { λ _ facts. units_of facts };

    ghost small = { λ x row units e k. facts_small row units e k };

    fn read(&self, row: &Facts) -> Option<[u32; 7]> {
        row.units()
    }
}

/// A month's units, as the members' facts make them.
pub type FactBook = MeasuredBook<FactUnits>;

impl MeasuredBook<FactUnits> {
    /// Makes the book of a month from its members' facts; refused, it stays as it was.
    pub fn fill(&mut self, month: u32, facts: &[Facts]) -> Result<(), Fault>
        ensures answered { answer result ≡ bare (table_rule units_of month facts.now) }
        ensures after { MatchResult result
            (λ _. Filled self.new.units month facts.now (table_rule units_of month facts.now))
            (λ _. self.new ≡ self.old) }
    {
        self.units.fill(month, &FactUnits, facts)
    }
}
