//! Months of a FERC year, a turn after the other.
use crate::mixing::{cell_of, mixed, mixed_all};
use crate::month::Books;
use anyhow::anyhow;
use ferc::rate::YearFigures;
use ferc::year::FercYear;
use std::alloc::Global;

/// Makes a year and bills one month of it, each turn.
pub(crate) fn ferc_months(heap: Global, members: u32, count: u32) -> anyhow::Result<i64> {
    let books = Books::new(heap, members)?;
    let mut cells = vec![in heap; 0i64; members as usize]?;
    let mut year = FercYear::blank();
    let mut sum = 0i64;
    for turn in 0..count {
        let figures = YearFigures {
            estimate: 9_000_000_000 + i64::from(turn),
            paid: 8_800_000_000,
            recovered: 8_900_000_000,
            volume: 10_000_000,
        };
        year.make(figures)
            .map_err(|_| anyhow!("a year is refused"))?;
        year.bill(books.of_turn(turn), cells.as_mut_slice())
            .map_err(|_| anyhow!("a month is refused"))?;
        sum = mixed(sum, cell_of(cells.as_slice(), turn));
        sum = mixed(sum, year.billed());
    }
    Ok(mixed_all(sum, cells.as_slice()))
}
