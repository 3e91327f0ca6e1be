//! Carrying out one order.
ghost use Rattle.std.specs.Prelude.{◌≡◌, ◌*◌, List, length};
ghost use Rattle.refusal.specs.Answers.{answer};
ghost use Rattle.ledger.specs.declared.line.Line.{Line};
ghost use Rattle.ledger.specs.Ledgers.{state_of, terms_of};
ghost use Rattle.runs.specs.Orders.{book, deed_of, cells_after, CarriedOut};

use crate::done::Done;
use crate::order::{Costs, Order};
use book::book::Book;
use ledger::ledger::Ledger;
use ledger::line::Line;
use month_voucher::cost_voucher;
use refusal::Fault;
use sharing::rule::Rule;

/// Puts costs on a voucher and books it.
fn book_costs<R: Rule>(ledger: &mut Ledger<R>, costs: &Costs) -> Result<Done, Fault>
    ensures carried { (file : List Line)
        → CarriedOut (terms_of ledger.old) (book costs.now.control costs.now.amounts)
        (state_of ledger.old file) (state_of ledger.new file) (answer result) }
    ensures same { (ledger.new.rule ≡ ledger.old.rule) × (ledger.new.sheet ≡ ledger.old.sheet) }
{
    let voucher = cost_voucher(costs.control, costs.amounts)?;
    ledger.book(voucher)?;
    Ok(Done::Booked)
}

/// Carries out one order: its cells go to the front of its statement.
pub(crate) fn carry_out<R: Rule, B: Book>(
    ledger: &mut Ledger<R>,
    order: &Order<B>,
    file: &mut [Line],
    cells: &mut [i64],
) -> Result<Done, Fault>
    requires { length cells.old ≡ 13 * ledger.old.accounts.members }
    ensures carried { CarriedOut (terms_of ledger.old) (deed_of B.Book order.now)
        (state_of ledger.old file.old) (state_of ledger.new file.new) (answer result) }
    ensures cells { cells.new
        ≡ cells_after (terms_of ledger.old) (state_of ledger.old file.old) (deed_of B.Book order.now) cells.old }
    ensures same { (ledger.new.rule ≡ ledger.old.rule) × (ledger.new.sheet ≡ ledger.old.sheet) }
{
    match order {
        Order::Book(costs) => book_costs(ledger, costs),
        Order::Bill(book) => ledger.bill(book, file, cells).map(Done::Billed),
        Order::Resettle(component, book) => {
            let members = ledger.members() as usize;
            ledger
                .resettle(*component, book, file, &mut cells[0..members])
                .map(|()| Done::Resettled)
        }
    }
}
