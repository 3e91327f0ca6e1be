//! Resettling a month on file.
ghost use Rattle.std.specs.Prelude.{◌≡◌, ◌-◌, if◌then◌else◌, Some, None};
ghost use Rattle.std.specs.Option.{option_map};
ghost use Rattle.refusal.specs.Answers.{answer, bare};
ghost use Rattle.ledger.specs.Readings.{reading_of};
ghost use Rattle.ledger.specs.Billing.{state_left, cells_left};
ghost use Rattle.ledger.specs.Resettling.{reconciled};
ghost use Rattle.ledger.specs.Histories.{resettled, history_with};
ghost use Rattle.ledger.specs.Kept.{Promise, Invariant};
ghost use Rattle.ledger.specs.Ledgers.{resettling_of, state_of, HoldsAfter};

use crate::ledger::Ledger;
use crate::line::Line;
use crate::resettling::resettle_lines;
use book::book::Book;
use refusal::{Fault, Layer, Refusal};
use sharing::rule::Rule;
use statement::component::Component;

/// The component of a number, where its units are reconciled.
fn reconciled(number: u32) -> Option<Component>
    ensures { option_map (λ c. c.place) result ≡ (if reconciled number then Some (number - 1) else None) }
{
    match number {
        8 | 11 => Some(Component {
            place: number as usize - 1,
        }),
        _ => None,
    }
}

impl<R: Rule> Ledger<R> {
    /// Resettles a component of the book's month by the book: that month's own pool is shared again, and
    /// the statement gets what changes. Refused, nothing changes.
    pub fn resettle<B: Book>(
        &mut self,
        component: u32,
        book: &B,
        file: &mut [Line],
        statement: &mut [i64],
    ) -> Result<(), Fault>
        ensures answered { answer result
            ≡ bare (resettling_of self.old file.old (reading_of B.Book book.now) component statement.old) }
        ensures state { state_of self.new file.new
            ≡ state_left (resettling_of self.old file.old (reading_of B.Book book.now) component statement.old) (state_of self.old file.old) }
        ensures cells { statement.new
            ≡ cells_left (resettling_of self.old file.old (reading_of B.Book book.now) component statement.old) statement.old }
        ensures same { (self.new.rule ≡ self.old.rule) × (self.new.sheet ≡ self.old.sheet) }
        ensures promise { HoldsAfter Promise self.old file.old self.new file.new
            (history_with result (resettled (component - 1) (reading_of B.Book book.now) statement.new)) }
        ensures invariant { HoldsAfter Invariant self.old file.old self.new file.new
            (history_with result (resettled (component - 1) (reading_of B.Book book.now) statement.new)) }
    {
        let Some(component) = reconciled(component) else {
            return Err(Layer::Ledger.refuses(Refusal::Kind));
        };
        let wanted = self.accounts.members as usize;
        self.accounts.check_memory(file, statement, wanted, book)?;
        if !self.accounts.is_on_file(book.month()) {
            return Err(Layer::Ledger.refuses(Refusal::Month));
        }
        let left = resettle_lines(&self.rule, &self.accounts, component, book, file, statement)?;
        self.accounts.settle(component, left);
        Ok(())
    }
}
