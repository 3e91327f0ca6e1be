//! What a resettlement changes: new shares less the cents billed to date, and the balance left.
ghost use Rattle.std.specs.Prelude.{◌≡◌, ℕ, ◌+◌, ◌*◌, ◌≤◌, true, length, pos, ◌-ℤ◌, if◌then◌else◌, Some, None, OnOk, slice_index_or, unsigned_abs};
ghost use Rattle.cents.specs.Cutting.{sum_z};
ghost use Rattle.refusal.specs.Answers.{answer};
ghost use Rattle.std.specs.List.{list_all};
ghost use Rattle.tariff.specs.Heads.{within};
ghost use Rattle.ledger.specs.Resettling.{cents_within, differences, new_balance_rule};

use crate::line::Line;
use crate::resettlement::Resettlement;
use cents::totals::sum_of;
use limits::{MOST_CENTS, MOST_LINE_CENTS, MOST_MEMBERS, MOST_SHARED};
use refusal::{Fault, Layer, Refusal};

/// Whether the cents of every line are in range.
fn cents_within(lines: &[Line]) -> bool
    ensures { result ≡ list_all cents_within lines.now }
{
    lines
        .iter()
        .all(|line| line.cents.unsigned_abs() <= MOST_LINE_CENTS)
}

/// Writes new shares less the cents billed to date.
fn write_differences(shares: &[i64], lines: &[Line], out: &mut [i64])
    requires lines { length lines.now ≡ length shares.now }
    requires out { length out.old ≡ length shares.now }
    requires shares { (m : ℕ) → unsigned_abs (slice_index_or shares.now m (pos 0)) ≤ (MOST_SHARED + 1) }
    requires cents { list_all cents_within lines.now ≡ true }
    ensures { out.new ≡ differences shares.now lines.now }
{
    for (i, share) in shares.iter().enumerate() {
        out[i] = *share - lines[i].cents;
    }
}

/// The balance less the sum of differences, where it is in range.
fn balance_left(balance: i64, changes: &[i64]) -> Option<i64>
    requires balance { unsigned_abs balance ≤ MOST_CENTS }
    requires changes { unsigned_abs (sum_z changes.now) ≤ MOST_MEMBERS * (MOST_SHARED + 1 + MOST_LINE_CENTS) }
    ensures { result ≡ (if within (balance -ℤ sum_z changes.now) then Some (balance -ℤ sum_z changes.now) else None) }
{
    let left = balance as i128 - sum_of(changes);
    if left.unsigned_abs() > u128::from(MOST_CENTS) {
        return None;
    }
    Some(left as i64)
}

/// The differences of a component, and the balance that they leave.
pub(crate) fn find_changes(
    given: Resettlement,
    shares: &[i64],
    lines: &[Line],
    out: &mut [i64],
) -> Result<i64, Fault>
    requires few { length shares.now ≤ MOST_MEMBERS }
    requires lines { length lines.now ≡ length shares.now }
    requires out { length out.old ≡ length shares.now }
    requires shares { (m : ℕ) → unsigned_abs (slice_index_or shares.now m (pos 0)) ≤ (MOST_SHARED + 1) }
    ensures answered { answer result ≡ new_balance_rule (given.component.place + 1) shares.now given.balance lines.now }
    ensures changes { OnOk result (out.new ≡ differences shares.now lines.now) }
{
    let fault = Layer::Ledger.refuses_at(Refusal::Resettled, given.component.number());
    if !cents_within(lines) {
        return Err(fault);
    }
    write_differences(shares, lines, out);
    balance_left(given.balance, out).ok_or(fault)
}
