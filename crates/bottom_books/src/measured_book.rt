//! A book of units that are read off rows of some form.
ghost use Rattle.std.specs.Prelude.{◌≡◌, ℕ};
ghost use Rattle.bottom_books.specs.Tables.{cell};
ghost use Rattle.std.proofs.Common.{rules};
ghost use Rattle.limits.specs.declared.TheConstants.{FIRST_MONTH};

use crate::unit_table::UnitTable;
use book::book::Book;
use refusal::Fault;
use std::marker::PhantomData;

/// A month's units, as rows of the form M make them. The forms differ in this too: a book made from
/// a table takes corrections, and the others take none.
#[derive(Clone, Copy)]
pub struct MeasuredBook<M> {
    pub(crate) units: UnitTable,
    form: PhantomData<M>,
}

impl<M> MeasuredBook<M> {
    /// One member without units: the place in which a book is made.
    pub fn blank() -> MeasuredBook<M>
        ensures month { result.units.month ≡ FIRST_MONTH }
        ensures count { result.units.count ≡ 1 }
        ensures units { (kind member : ℕ) → cell result.units.rows kind member ≡ 0 }
    {
        MeasuredBook {
            units: UnitTable::blank(),
            form: PhantomData,
        }
    }
}

impl<M> Book for MeasuredBook<M> {
    ghost month = { λ b. b.units.month };

    ghost count = { λ b. b.units.count };

    ghost units = { λ b kind member. cell b.units.rows kind member };

    ghost month_in_range = { Prim.search rules };

    ghost count_in_range = { Prim.search rules };

    ghost units_in_range = { Prim.search rules };

    fn month(&self) -> u32 {
        self.units.month
    }

    fn members(&self) -> u32 {
        self.units.count
    }

    fn units(&self, kind: u32, member: u32) -> Result<u32, Fault> {
        self.units.ask(kind, member)
    }
}
