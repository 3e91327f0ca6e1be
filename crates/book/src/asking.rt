//! The tests of an ask and of a correction, alike for every book.
ghost use Rattle.std.specs.Prelude.{◌≡◌, ◌≤◌, IfOk};
ghost use Rattle.refusal.specs.Answers.{answer};
ghost use Rattle.book.specs.Asking.{pair_rule};
ghost use Rattle.book.specs.Correcting.{new_units_rule, sum_rule};

use crate::book::Book;
use limits::MOST_UNITS;
use refusal::{Fault, Layer, Refusal};

/// Tests a kind and a member's place.
pub fn check_pair(count: u32, kind: u32, member: u32) -> Result<(), Fault>
    ensures { answer result ≡ pair_rule count kind member }
{
    if !(1..=7).contains(&kind) {
        return Err(Layer::Book.refuses(Refusal::Kind));
    }
    if member >= count {
        return Err(Layer::Book.refuses(Refusal::Member));
    }
    Ok(())
}

/// Units with a signed amount added, where they stay in range.
fn added(units: u32, amount: i64) -> Result<u32, Fault>
    ensures { answer result ≡ sum_rule units amount }
{
    match i64::from(units).checked_add(amount) {
        Some(sum) if 0 <= sum && sum as u64 <= MOST_UNITS => Ok(sum as u32),
        _ => Err(Layer::Book.refuses(Refusal::Corrected)),
    }
}

/// The units that a correction of a book would leave at its pair, before it is asked whether the
/// book takes that pair.
pub fn new_units<B: Book>(book: &B, kind: u32, member: u32, amount: i64) -> Result<u32, Fault>
    ensures answered { answer result ≡ new_units_rule (B.count book.now) (B.units book.now kind member) kind member amount }
    ensures small { IfOk result (λ units. units ≤ MOST_UNITS) }
{
    if amount.unsigned_abs() > MOST_UNITS {
        return Err(Layer::Book.refuses(Refusal::Range));
    }
    let units = book.units(kind, member)?;
    added(units, amount)
}
