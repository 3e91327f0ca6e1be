//! Sums that depend on the place of each number, so that two programs' results can be compared by one number.
use ledger::line::Line;

pub(crate) fn mixed(sum: i64, number: i64) -> i64 {
    sum.wrapping_mul(31).wrapping_add(number)
}

pub(crate) fn mixed_all(sum: i64, numbers: &[i64]) -> i64 {
    numbers.iter().fold(sum, |sum, number| mixed(sum, *number))
}

pub(crate) fn mixed_lines(sum: i64, lines: &[Line]) -> i64 {
    lines.iter().fold(sum, |sum, line| {
        mixed(mixed(sum, i64::from(line.units)), line.cents)
    })
}

/// One of the first thirteen cells, another each turn, so that what a turn writes is read; 0 where
/// there is none.
pub(crate) fn cell_of(cells: &[i64], turn: u32) -> i64 {
    cells.get(turn as usize % 13).copied().unwrap_or(0)
}
