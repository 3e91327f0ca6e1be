//! Filling a table, asking it, and setting one of its units.
ghost use Rattle.std.specs.Prelude.{◌≡◌, ℕ, ◌-◌, ◌<◌, ◌≤◌, length, take, IfOk, if◌then◌else◌, MatchResult, OnOk};
ghost use Rattle.refusal.specs.Answers.{answer, answer_by, bare, done};
ghost use Rattle.book.specs.Asking.{ask_rule};
ghost use Rattle.book.specs.Correcting.{same_pair};
ghost use Rattle.bottom_books.specs.Tables.{UnitsInRange, cell, rows_rule, table_rule};
ghost use Rattle.bottom_books.specs.Filled.{Filled};

use crate::measure::Measure;
use crate::unit_table::UnitTable;
use book::asking::check_pair;
use limits::{FIRST_MONTH, MOST_MEMBERS, MOST_UNITS, count_lawful, month_lawful};
use refusal::{Fault, Layer, Refusal};

/// Reads rows as units, into memory with a place for each.
fn read_rows<R, M: Measure<R>>(measure: &M, rows: &[R], out: &mut [[u32; 7]]) -> Result<(), Fault>
    requires { length out.old ≡ length rows.now }
    ensures answered { answer result ≡ bare (rows_rule (M.reads measure.now) rows.now) }
    ensures rows { OnOk result (rows_rule (M.reads measure.now) rows.now ≡ done out.new) }
{
    for (i, row) in rows.iter().enumerate() {
        out[i] = measure
            .read(row)
            .ok_or(Layer::Book.refuses(Refusal::Range))?;
    }
    Ok(())
}

/// Rows read as units, into the first of the places for members; the others have none.
fn fresh_rows<R, M: Measure<R>>(measure: &M, rows: &[R]) -> Result<[[u32; 7]; MOST_MEMBERS], Fault>
    requires { length rows.now ≤ MOST_MEMBERS }
    ensures answered { answer_by (λ fresh. take (length rows.now) fresh) result ≡ rows_rule (M.reads measure.now) rows.now }
    ensures long { IfOk result (λ fresh. length fresh ≡ MOST_MEMBERS) }
    ensures small { IfOk result (λ fresh. UnitsInRange fresh) }
{
    let mut fresh = [[0u32; 7]; MOST_MEMBERS];
    read_rows(measure, rows, &mut fresh[..rows.len()])?;
    Ok(fresh)
}

impl UnitTable {
    /// One member without units, in the first month: the place in which a book is made.
    pub(crate) fn blank() -> UnitTable
        ensures month { result.month ≡ FIRST_MONTH }
        ensures count { result.count ≡ 1 }
        ensures units { (kind member : ℕ) → cell result.rows kind member ≡ 0 }
    {
        UnitTable {
            month: FIRST_MONTH,
            count: 1,
            rows: [[0; 7]; MOST_MEMBERS],
        }
    }

    /// Fills the table from rows of any form; refused, it stays as it was.
    pub(crate) fn fill<R, M: Measure<R>>(
        &mut self,
        month: u32,
        measure: &M,
        rows: &[R],
    ) -> Result<(), Fault>
        ensures answered { answer result ≡ bare (table_rule (M.reads measure.now) month rows.now) }
        ensures after { MatchResult result
            (λ _. Filled self.new month rows.now (table_rule (M.reads measure.now) month rows.now))
            (λ _. self.new ≡ self.old) }
    {
        if !month_lawful(month) {
            return Err(Layer::Book.refuses(Refusal::Range));
        }
        if !count_lawful(rows.len()) {
            return Err(Layer::Book.refuses(Refusal::Count));
        }
        let fresh = fresh_rows(measure, rows)?;
        *self = UnitTable {
            month,
            count: rows.len() as u32,
            rows: fresh,
        };
        Ok(())
    }

    /// The units of a kind and a member.
    pub(crate) fn ask(&self, kind: u32, member: u32) -> Result<u32, Fault>
        ensures { answer result ≡ ask_rule self.now.count (cell self.now.rows kind member) kind member }
    {
        check_pair(self.count, kind, member)?;
        Ok(self.rows[member as usize][kind as usize - 1])
    }

    /// Sets the units of a kind and a member.
    pub(crate) fn put(&mut self, kind: u32, member: u32, units: u32)
        requires kind { (1 ≤ kind) × (kind ≤ 7) }
        requires member { member < self.old.count }
        requires units { units ≤ MOST_UNITS }
        ensures cells { (k m : ℕ) → 1 ≤ k → cell self.new.rows k m ≡ (if same_pair (k, m) (kind, member) then units else cell self.old.rows k m) }
        ensures kept { (self.new.month ≡ self.old.month) × (self.new.count ≡ self.old.count) }
    {
        self.rows[member as usize][kind as usize - 1] = units;
    }
}
