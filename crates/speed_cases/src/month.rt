//! The month that all tasks but the reader's are done on.
use anyhow::anyhow;
use bottom_books::table_book::TableBook;
use ledger::ledger::Ledger;
use limits::FIRST_MONTH;
use month_voucher::cost_voucher;
use sharing::rule::Rule;
use std::alloc::Global;
use std::array;
use tariff::sheet::Sheet;

/// A member's units, which are others in an odd turn.
fn row_of(member: u32, odd: u32) -> [u32; 7] {
    array::from_fn(|kind| {
        let seed = member
            .wrapping_mul(7_919)
            .wrapping_add((kind as u32).wrapping_mul(104_729))
            .wrapping_add(odd.wrapping_mul(15_485_863));
        1 + seed % 1_000_003
    })
}

/// The table book of an even or of an odd turn.
fn book_of(heap: Global, members: u32, odd: u32) -> anyhow::Result<TableBook> {
    let rows: Vec<[u32; 7]> = (0..members)
        .map(|member| row_of(member, odd))
        .collect(heap)?;
    let mut book = TableBook::blank();
    book.fill(FIRST_MONTH, rows.as_slice())
        .map_err(|_| anyhow!("a book is refused"))?;
    Ok(book)
}

/// The books that the turns take in turn: no turn's work is the one's before it.
#[derive(Drop)]
pub(crate) struct Books {
    even: TableBook,
    odd: TableBook,
}

impl Books {
    pub(crate) fn new(heap: Global, members: u32) -> anyhow::Result<Books> {
        let even = book_of(heap, members, 0)?;
        let odd = book_of(heap, members, 1)?;
        Ok(Books { even, odd })
    }

    pub(crate) fn of_turn(&self, turn: u32) -> &TableBook {
        if turn % 2 == 0 { &self.even } else { &self.odd }
    }
}

/// Opens a ledger in the place of this one, and books a turn's costs on it.
pub(crate) fn open_and_book<R: Rule + Copy + Drop>(
    ledger: &mut Ledger<R>,
    rule: R,
    members: u32,
    turn: u32,
) -> anyhow::Result<()> {
    let mut sheet = Sheet::even();
    sheet
        .lay(
            [336, 60, 250, 41, 243, 70],
            [400, 100, 400, 100],
            [600, 987],
        )
        .map_err(|_| anyhow!("a sheet is refused"))?;
    ledger
        .open(rule, sheet, members, FIRST_MONTH)
        .map_err(|_| anyhow!("a ledger is refused"))?;
    let first = 2_000_000_000 + i64::from(turn);
    let cost = [
        first, 50_000_000, 40_000_000, 30_000_000, 20_000_000, 10_000_000,
    ];
    let voucher = cost_voucher(first + 150_000_000, cost).map_err(|_| anyhow!(
        "a voucher is refused"
    ))?;
    ledger
        .book(voucher)
        .map_err(|_| anyhow!("a booking is refused"))
}
