//! What a bill writes.
ghost use Rattle.std.specs.Prelude.{◌≡◌, ℕ, ◌≤◌, length, IfOk, MatchResult, unsigned_abs};
ghost use Rattle.refusal.specs.Answers.{answer_by};
ghost use Rattle.tariff.specs.Costs.{Bounded};
ghost use Rattle.ledger.specs.Readings.{reading_of};
ghost use Rattle.ledger.specs.States.{account_at};
ghost use Rattle.ledger.specs.Billing.{pools_of, bill_check, charges_billed, cells_billed, slot_written};

use crate::accounts::Accounts;
use crate::line::Line;
use crate::rows::write_slot;
use book::book::Book;
use limits::{MOST_CENTS, MOST_COST, MOST_MEMBERS};
use refusal::{Fault, Layer, Refusal};
use sharing::rule::Rule;
use statement::charge::ComponentCharge;
use statement::component::Component;
use statement::month::charge_month;
use statement::reading::read_book;

/// Tests file, statement and book, reads the book into a row for each member, charges the pools, and writes the
/// open month's lines. Refused, file and statement stay.
pub(crate) fn charge_book<R: Rule, B: Book>(
    rule: &R,
    accounts: &Accounts,
    costs: [i64; 13],
    book: &B,
    file: &mut [Line],
    statement: &mut [i64],
) -> Result<[ComponentCharge; 13], Fault>
    requires members { accounts.now.members ≤ MOST_MEMBERS }
    requires balances { (c : ℕ) → unsigned_abs (account_at accounts.now c).balance ≤ MOST_CENTS }
    requires costs { Bounded MOST_COST costs }
    ensures answered { answer_by (λ _. tt) result
        ≡ bill_check accounts.now (pools_of costs accounts.now) (reading_of B.Book book.now) (length file.old) (length statement.old) }
    ensures charges { IfOk result (λ charges. charges
        ≡ charges_billed (R.shares rule.now) (pools_of costs accounts.now) (reading_of B.Book book.now)) }
    ensures cells { MatchResult result
        (λ _. statement.new ≡ cells_billed (R.shares rule.now) (pools_of costs accounts.now) (reading_of B.Book book.now))
        (λ _. statement.new ≡ statement.old) }
    ensures file { MatchResult result
        (λ _. file.new ≡ slot_written accounts.now (reading_of B.Book book.now) statement.new file.old)
        (λ _. file.new ≡ file.old) }
{
    let members = accounts.members;
    let wanted = 13 * members as usize;
    accounts.check_memory(file, statement, wanted, book)?;
    if book.month() != accounts.month {
        return Err(Layer::Ledger.refuses(Refusal::Month));
    }
    let pools = accounts.pools(costs);
    // A row for each member, as many as there may be.
    let mut units = [[0u32; 7]; MOST_MEMBERS];
    let units = &mut units[..members as usize];
    read_book(book, units)?;
    let charges = charge_month(rule, pools, units, statement)?;
    let start = accounts.row_start(accounts.month, Component { place: 0 });
    let end = start + statement.len();
    write_slot(units, statement, &mut file[start..end]);
    Ok(charges)
}
