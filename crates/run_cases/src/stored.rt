//! A stored run: a ledger's terms, its file, and its orders.
use crate::numbers::Numbers;
use anyhow::anyhow;
use bottom_books::table_book::TableBook;
use ledger::line::Line;
use runs::order::{Costs, Order};
use sharing::name::RuleName;
use std::alloc::Global;
use std::array;
use tariff::sheet::Sheet;

/// What a run is made from.
#[derive(Drop)]
pub struct StoredRun {
    pub rule: RuleName,
    pub members: u32,
    pub first: u32,
    pub sheet: Sheet,
    pub file: Vec<Line>,
    pub orders: Vec<Order<TableBook>>,
}

impl StoredRun {
    /// How many cells the statement of an order has.
    pub(crate) fn cells(&self) -> usize {
        13 * self.members as usize
    }
}

/// Takes the rule, which the file has by a number: 1 is ratio, any other posted.
fn rule_of(numbers: &mut Numbers<'_>) -> anyhow::Result<RuleName> {
    Ok(match numbers.count()? {
        1 => RuleName::Ratio,
        _ => RuleName::Posted,
    })
}

/// Takes the twelve weights of a sheet.
fn sheet_of(numbers: &mut Numbers<'_>) -> anyhow::Result<Sheet> {
    let division = array::try_from_fn(|_| numbers.count())?;
    let management = array::try_from_fn(|_| numbers.count())?;
    let split = array::try_from_fn(|_| numbers.count())?;
    let mut sheet = Sheet::even();
    sheet
        .lay(division, management, split)
        .map_err(|_| anyhow!("a stored sheet is refused"))?;
    Ok(sheet)
}

/// Takes a line of the file.
fn line_of(numbers: &mut Numbers<'_>) -> anyhow::Result<Line> {
    let units = numbers.count()?;
    let cents = numbers.next()?;
    Ok(Line { units, cents })
}

/// Takes the lines of the file.
fn file_of(heap: Global, numbers: &mut Numbers<'_>) -> anyhow::Result<Vec<Line>> {
    let count = numbers.count()?;
    (0..count).map(|_| line_of(numbers)).try_collect(heap)
}

/// Takes the units of all members, of seven kinds each.
fn rows_of(heap: Global, numbers: &mut Numbers<'_>) -> anyhow::Result<Vec<[u32; 7]>> {
    let count = numbers.count()?;
    (0..count)
        .map(|_| array::try_from_fn(|_| numbers.count()))
        .try_collect(heap)
}

/// Takes a book: its month and the units of its members.
fn book_of(heap: Global, numbers: &mut Numbers<'_>) -> anyhow::Result<TableBook> {
    let month = numbers.count()?;
    let rows = rows_of(heap, numbers)?;
    let mut book = TableBook::blank();
    book.fill(month, rows.as_slice())
        .map_err(|_| anyhow!("a stored book is refused"))?;
    Ok(book)
}

/// Takes a control total and the amounts of the six heads.
fn costs_of(numbers: &mut Numbers<'_>) -> anyhow::Result<Costs> {
    let control = numbers.next()?;
    let amounts = array::try_from_fn(|_| numbers.next())?;
    Ok(Costs { control, amounts })
}

/// Takes one order, whose sort the file has by a number.
fn order_of(heap: Global, numbers: &mut Numbers<'_>) -> anyhow::Result<Order<TableBook>> {
    match numbers.count()? {
        0 => Ok(Order::Book(costs_of(numbers)?)),
        1 => Ok(Order::Bill(book_of(heap, numbers)?)),
        2 => {
            let component = numbers.count()?;
            Ok(Order::Resettle(component, book_of(heap, numbers)?))
        }
        _ => Err(anyhow!("a stored order is of no sort")),
    }
}

/// Takes the orders.
fn orders_of(heap: Global, numbers: &mut Numbers<'_>) -> anyhow::Result<Vec<Order<TableBook>>> {
    let count = numbers.count()?;
    (0..count)
        .map(|_| order_of(heap, numbers))
        .try_collect(heap)
}

/// Takes a whole run.
pub(crate) fn run_of(heap: Global, numbers: &mut Numbers<'_>) -> anyhow::Result<StoredRun> {
    Ok(StoredRun {
        rule: rule_of(numbers)?,
        members: numbers.count()?,
        first: numbers.count()?,
        sheet: sheet_of(numbers)?,
        file: file_of(heap, numbers)?,
        orders: orders_of(heap, numbers)?,
    })
}
