//! What is found after the first orders of a run, as the second program stores it.
use crate::stored::StoredRun;
use anyhow::{Context, anyhow};
use bottom_books::table_book::TableBook;
use ledger::ledger::Ledger;
use ledger::line::Line;
use refusal::Fault;
use runs::done::Done;
use runs::order::Order;
use runs::run::run;
use sharing::rule::Rule;
use statement::charge::ComponentCharge;
use std::alloc::{AllocError, Global};

/// Numbers found, in the order in which they are stored.
#[derive(Drop)]
struct Found {
    numbers: Vec<i64>,
}

impl Found {
    fn put(&mut self, numbers: &[i64]) -> Result<(), AllocError> {
        self.numbers.extend_from_slice(numbers)
    }

    /// Puts each component's pool, units and balance.
    fn put_charges(&mut self, charges: [ComponentCharge; 13]) -> Result<(), AllocError> {
        self.numbers.extend(
            charges.iter().flat_map(|charge| [
                charge.pool,
                i64::from(charge.units),
                charge.balance,
            ]),
        )
    }

    /// Puts an ending: 0 booked, 1 billed, 2 resettled, 3 refused; then refusal, layer and place, and
    /// a bill's components.
    fn put_outcome(&mut self, outcome: Result<Done, Fault>) -> Result<(), AllocError> {
        match outcome {
            Ok(Done::Booked) => self.put(&[0; 43]),
            Ok(Done::Billed(charges)) => {
                self.put(&[1, 0, 0, 0])?;
                self.put_charges(charges)
            }
            Ok(Done::Resettled) => {
                self.put(&[2, 0, 0, 0])?;
                self.put(&[0; 39])
            }
            Err(fault) => {
                self.put(&[3])?;
                self.put_fault(fault)?;
                self.put(&[0; 39])
            }
        }
    }

    /// Puts a refusal's number, its layer by its place in the list of layers, from 1, and its place.
    fn put_fault(&mut self, fault: Fault) -> Result<(), AllocError> {
        let number = i64::from(fault.refusal.number());
        let layer = fault.layer as i64 + 1;
        self.put(&[number, layer, i64::from(fault.place)])
    }

    /// Puts balances, waiting heads and the open month.
    fn put_ledger<R: Rule>(&mut self, ledger: &Ledger<R>) -> Result<(), AllocError> {
        self.put(&ledger.balances())?;
        self.put(&ledger.waiting())?;
        self.put(&[i64::from(ledger.month())])
    }

    fn put_file(&mut self, file: &[Line]) -> Result<(), AllocError> {
        self.numbers.extend(
            file.iter()
                .flat_map(|line| [i64::from(line.units), line.cents]),
        )
    }

    /// Puts how the last order ended and its part of the statements; nothing where there is none.
    fn put_last(
        &mut self,
        outcomes: &[Result<Done, Fault>],
        statements: &[i64],
        width: usize,
    ) -> Result<(), AllocError> {
        let Some(last) = outcomes.last() else {
            return Ok(());
        };
        self.put_outcome(*last)?;
        let start = statements.len().saturating_sub(width);
        self.put(&statements[start..])
    }
}

/// Carries out orders on a new ledger, in memory that is long enough for them, and gives what is
/// found then.
fn carried<R: Rule + Copy + Drop>(
    heap: Global,
    rule: R,
    stored: &StoredRun,
    orders: &[Order<TableBook>],
    file: &mut [Line],
    statements: &mut [i64],
    outcomes: &mut [Result<Done, Fault>],
) -> anyhow::Result<Vec<i64>> {
    let mut ledger = Ledger::blank(rule);
    run(
        &mut ledger,
        rule,
        stored.sheet,
        stored.members,
        stored.first,
        orders,
        file,
        statements,
        outcomes,
    )
    .map_err(|_| anyhow!("a stored run is refused"))?;
    let mut found = Found {
        numbers: Vec::new(heap),
    };
    found.put_last(outcomes, statements, stored.cells())?;
    found.put_ledger(&ledger)?;
    found.put_file(file)?;
    Ok(found.numbers)
}

/// Carries out the first orders of a run, and gives what is found then.
pub(crate) fn found_after<R: Rule + Copy + Drop>(
    heap: Global,
    rule: R,
    stored: &StoredRun,
    count: usize,
) -> anyhow::Result<Vec<i64>> {
    let orders = stored.orders.as_slice().get(..count);
    let orders = orders.context("a stored run has too few orders")?;
    let cells = stored.cells().checked_mul(count);
    let cells = cells.context("a stored run is too long")?;
    let mut file = stored.file.clone()?;
    let mut statements = vec![in heap; 0i64; cells]?;
    let mut outcomes = vec![in heap; Ok(Done::Booked); count]?;
    carried(
        heap,
        rule,
        stored,
        orders,
        file.as_mut_slice(),
        statements.as_mut_slice(),
        outcomes.as_mut_slice(),
    )
}
