//! A whole list of orders, carried out on a new ledger and its file.
ghost use Rattle.std.specs.Prelude.{◌≡◌, ◌*◌, [], map, length, OnErr, OnOk, ◌==◌};
ghost use Rattle.refusal.specs.Answers.{answer};
ghost use Rattle.ledger.specs.Kept.{Kept};
ghost use Rattle.ledger.specs.Ledgers.{state_of, terms_of, terms_with};
ghost use Rattle.runs.specs.Orders.{deed_of};
ghost use Rattle.runs.specs.Runs.{run_rule, world_at, new_world, Ran};

use crate::carrying::carry_out;
use crate::done::Done;
use crate::order::Order;
use book::book::Book;
use ledger::ledger::Ledger;
use ledger::line::Line;
use refusal::{Fault, Layer, Refusal};
use sharing::rule::Rule;
use tariff::sheet::Sheet;

/// Whether there is a statement of thirteen cells a member for each order.
fn cells_fit(cells: usize, orders: usize, members: u32) -> bool
    ensures { result ≡ (cells == orders * (13 * members)) }
{
    orders.checked_mul(13 * members as usize) == Some(cells)
}

/// Carries out the orders one after the other on a ledger that has no history yet.
#[tactic(auto, using(crate::proofs::Running::row_fits))]
fn run_orders<R: Rule, B: Book>(
    ledger: &mut Ledger<R>,
    orders: &[Order<B>],
    file: &mut [Line],
    statements: &mut [i64],
    outcomes: &mut [Result<Done, Fault>],
)
    requires outcomes { length outcomes.old ≡ length orders.now }
    requires cells { length statements.old ≡ length orders.now * (13 * ledger.old.accounts.members) }
    requires kept { Kept (terms_of ledger.old) [] (state_of ledger.old file.old) }
    ensures ran { Ran (terms_of ledger.old) (world_at (state_of ledger.old file.old)) (map (deed_of B.Book) orders.now)
        outcomes.new statements.old statements.new (state_of ledger.new file.new) }
    ensures same { (ledger.new.rule ≡ ledger.old.rule) × (ledger.new.sheet ≡ ledger.old.sheet) }
{
    let width = 13 * ledger.members() as usize;
    for (i, order) in orders.iter().enumerate() {
        let start = i * width;
        let end = start + width;
        let cells = &mut statements[start..end];
        outcomes[i] = carry_out(ledger, order, file, cells);
    }
}

// The terms come one by one, as `open` takes them.
/// Opens a ledger in the place of another and carries out a list of orders on it and its file, whatever
/// the file holds. Each order has its outcome, and a statement of thirteen cells a member: a bill writes
/// all of them, a resettlement the first ones. Refused before the first order, nothing changes.
pub fn run<R: Rule + Drop, B: Book>(
    ledger: &mut Ledger<R>,
    rule: R,
    sheet: Sheet,
    members: u32,
    first: u32,
    orders: &[Order<B>],
    file: &mut [Line],
    statements: &mut [i64],
    outcomes: &mut [Result<Done, Fault>],
) -> Result<(), Fault>
    ensures answered { answer result ≡ run_rule (length orders.now) (length outcomes.old) (length statements.old) members first }
    ensures ran { OnOk result
        (Ran (terms_with R.Rule rule sheet members first) (new_world members first file.old) (map (deed_of B.Book) orders.now)
        outcomes.new statements.old statements.new (state_of ledger.new file.new)) }
    ensures same { OnOk result ((ledger.new.rule ≡ rule) × (ledger.new.sheet ≡ sheet)) }
    ensures refused { OnErr result ((ledger.new ≡ ledger.old) × (file.new ≡ file.old)
        × (statements.new ≡ statements.old) × (outcomes.new ≡ outcomes.old)) }
{
    if outcomes.len() != orders.len() || !cells_fit(statements.len(), orders.len(), members) {
        return Err(Layer::Ledger.refuses(Refusal::Length));
    }
    ledger.open(rule, sheet, members, first)?;
    run_orders(ledger, orders, file, statements, outcomes);
    Ok(())
}
