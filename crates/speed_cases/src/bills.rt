//! Billing and resettling, a turn after the other.
use crate::mixing::{cell_of, mixed, mixed_all, mixed_lines};
use crate::month::{Books, open_and_book};
use anyhow::anyhow;
use ledger::ledger::Ledger;
use ledger::line::{Line, MEMBER_LINES};
use sharing::rule::Rule;
use std::alloc::Global;

/// Opens a ledger, books once and bills once, each turn.
pub(crate) fn bills<R: Rule + Copy + Drop>(
    heap: Global,
    rule: R,
    members: u32,
    count: u32,
) -> anyhow::Result<i64> {
    let books = Books::new(heap, members)?;
    let mut file = vec![in heap; Line { units: 0, cents: 0 }; MEMBER_LINES * members as usize]?;
    let mut statement = vec![in heap; 0i64; 13 * members as usize]?;
    let mut ledger = Ledger::blank(rule);
    let mut sum = 0i64;
    for turn in 0..count {
        open_and_book(&mut ledger, rule, members, turn)?;
        ledger
            .bill(
                books.of_turn(turn),
                file.as_mut_slice(),
                statement.as_mut_slice(),
            )
            .map_err(|_| anyhow!("a bill is refused"))?;
        sum = mixed(sum, cell_of(statement.as_slice(), turn));
        sum = mixed_all(sum, &ledger.balances());
    }
    let sum = mixed_all(sum, statement.as_slice());
    Ok(mixed_lines(sum, file.as_slice()))
}

/// Bills a month once, and resettles one component of it each turn.
pub(crate) fn resettlements<R: Rule + Copy + Drop>(
    heap: Global,
    rule: R,
    component: u32,
    members: u32,
    count: u32,
) -> anyhow::Result<i64> {
    let books = Books::new(heap, members)?;
    let mut file = vec![in heap; Line { units: 0, cents: 0 }; MEMBER_LINES * members as usize]?;
    let mut statement = vec![in heap; 0i64; 13 * members as usize]?;
    let mut cells = vec![in heap; 0i64; members as usize]?;
    let mut ledger = Ledger::blank(rule);
    open_and_book(&mut ledger, rule, members, 0)?;
    ledger
        .bill(
            books.of_turn(1),
            file.as_mut_slice(),
            statement.as_mut_slice(),
        )
        .map_err(|_| anyhow!("a bill is refused"))?;
    let mut sum = 0i64;
    for turn in 0..count {
        ledger
            .resettle(
                component,
                books.of_turn(turn),
                file.as_mut_slice(),
                cells.as_mut_slice(),
            )
            .map_err(|_| anyhow!("a resettlement is refused"))?;
        sum = mixed(sum, cell_of(cells.as_slice(), turn));
    }
    let sum = mixed_all(sum, &ledger.balances());
    let sum = mixed_all(sum, cells.as_slice());
    Ok(mixed_lines(sum, file.as_slice()))
}
