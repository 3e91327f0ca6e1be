//! Billing the open month.
ghost use Rattle.std.specs.Prelude.{◌≡◌};
ghost use Rattle.refusal.specs.Answers.{answer, done, next};
ghost use Rattle.ledger.specs.Readings.{reading_of};
ghost use Rattle.ledger.specs.Billing.{state_left, cells_left};
ghost use Rattle.ledger.specs.Histories.{billed, history_with};
ghost use Rattle.ledger.specs.Kept.{Promise, Invariant};
ghost use Rattle.ledger.specs.Ledgers.{bill_of, state_of, HoldsAfter};

use crate::billing::charge_book;
use crate::ledger::Ledger;
use crate::line::Line;
use book::book::Book;
use refusal::Fault;
use sharing::rule::Rule;
use statement::charge::ComponentCharge;
use tariff::heads::Heads;

impl<R: Rule> Ledger<R> {
    /// Bills the open month by a book: shares go into the statement, units and cents into the month's
    /// slot of the file. Refused, nothing changes.
    pub fn bill<B: Book>(
        &mut self,
        book: &B,
        file: &mut [Line],
        statement: &mut [i64],
    ) -> Result<[ComponentCharge; 13], Fault>
        ensures answered { answer result
            ≡ next (bill_of self.old file.old (reading_of B.Book book.now) statement.old) (λ left. done left.components) }
        ensures state { state_of self.new file.new
            ≡ state_left (bill_of self.old file.old (reading_of B.Book book.now) statement.old) (state_of self.old file.old) }
        ensures cells { statement.new
            ≡ cells_left (bill_of self.old file.old (reading_of B.Book book.now) statement.old) statement.old }
        ensures same { (self.new.rule ≡ self.old.rule) × (self.new.sheet ≡ self.old.sheet) }
        ensures promise { HoldsAfter Promise self.old file.old self.new file.new
            (history_with result (billed (reading_of B.Book book.now) statement.new)) }
        ensures invariant { HoldsAfter Invariant self.old file.old self.new file.new
            (history_with result (billed (reading_of B.Book book.now) statement.new)) }
    {
        let costs = self.sheet.costs(&self.heads);
        let charges = charge_book(&self.rule, &self.accounts, costs, book, file, statement)?;
        self.accounts.close(charges);
        self.heads = Heads::zero();
        Ok(charges)
    }
}
