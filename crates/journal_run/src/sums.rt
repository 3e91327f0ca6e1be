//! The sums that a journal ends with.
ghost use Rattle.std.specs.Prelude.{◌≡◌, ◌+◌, ◌*◌, ◌^◌, ◌≤◌, ◌<◌, length, Some, ◌+ℤ◌, unsigned_abs};
ghost use Rattle.journal_run.specs.Outcomes.{booked_by, billed_by, agrees, yes_or_no, account_lines};

use cents::totals::sum_of;
use journal_text::entry::Entry;
use refusal::Fault;
use runs::done::Done;
use std::fmt;

/// The cents that an order booked.
fn booked_by(entry: &Entry, outcome: Result<Done, Fault>) -> i128
    ensures booked { result ≡ booked_by entry.now outcome }
    ensures small { unsigned_abs result ≤ 2 ^ 63 * 6 }
{
    match outcome {
        Ok(Done::Booked) => sum_of(&entry.month.cost),
        _ => 0,
    }
}

/// The cents that an order billed: all of a bill's statement, and a resettlement's cell for each member.
fn billed_by(entry: &Entry, outcome: Result<Done, Fault>, cells: &[i64]) -> i128
    ensures billed { result ≡ billed_by entry.now outcome cells.now }
    ensures small { unsigned_abs result ≤ 2 ^ 63 * length cells.now }
{
    match outcome {
        Ok(Done::Billed(_)) => sum_of(cells),
        Ok(Done::Resettled) => {
            let count = entry.month.count.min(cells.len());
            sum_of(&cells[0..count])
        }
        _ => 0,
    }
}

/// All cents booked, and all cents billed.
#[derive(Clone, Copy)]
pub(crate) struct Sums {
    pub booked: i128,
    pub billed: i128,
}

impl Sums {
    /// Adds what an order booked or billed; a refused one did neither.
    pub(crate) fn add(&mut self, entry: &Entry, outcome: Result<Done, Fault>, cells: &[i64])
        requires booked { unsigned_abs self.old.booked < 2 ^ 126 }
        requires billed { unsigned_abs self.old.billed < 2 ^ 126 }
        ensures booked { self.new.booked ≡ self.old.booked +ℤ booked_by entry.now outcome }
        ensures billed { self.new.billed ≡ self.old.billed +ℤ billed_by entry.now outcome cells.now }
        ensures booked_small { unsigned_abs self.new.booked ≤ unsigned_abs self.old.booked + 2 ^ 63 * 6 }
        ensures billed_small { unsigned_abs self.new.billed ≤ unsigned_abs self.old.billed + 2 ^ 63 * length cells.now }
    {
        self.booked += booked_by(entry, outcome);
        self.billed += billed_by(entry, outcome, cells);
    }
}

/// Whether every cent booked was billed, or is unbilled yet.
fn agrees(booked: i128, billed: i128, unbilled: i128) -> bool
    ensures { result ≡ agrees booked billed unbilled }
{
    match billed.checked_add(unbilled) {
        Some(found) => found == booked,
        None => false,
    }
}

/// How a test is printed.
fn yes_or_no(agree: bool) -> &'static str
    ensures { result.now ≡ yes_or_no agree }
{
    if agree { "yes" } else { "no" }
}

/// The account of a run: the cents booked and billed, the balances, and the costs that wait.
#[derive(Clone, Copy)]
pub(crate) struct RunAccount {
    pub sums: Sums,
    pub balances: [i64; 13],
    pub waiting: [i64; 6],
}

// The last lines: every cent booked was billed, is in a balance, or waits.
impl fmt::Display for RunAccount {
    ghost output = { λ a. Some (account_lines a.sums.booked a.sums.billed a.balances a.waiting) };

    fn fmt<W: fmt::Write>(&self, f: &mut fmt::Formatter<W>) -> fmt::Result {
        let Sums { booked, billed } = self.sums;
        let balances = sum_of(&self.balances);
        let waiting = sum_of(&self.waiting);
        let agree = yes_or_no(agrees(booked, billed, balances + waiting));
        writeln!(f, "booked={booked}\nbilled={billed}")?;
        writeln!(f, "balances={balances}\nwaiting={waiting}\nagree={agree}")
    }
}
