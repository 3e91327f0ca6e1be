//! A month's costs on one voucher: opened with the control total, one line a head, balanced.
#![tactic(auto)]

ghost use Rattle.std.specs.Prelude.{◌≡◌, IfOk, OnOk};
ghost use Rattle.cents.specs.Cutting.{sum_z};
ghost use Rattle.refusal.specs.Answers.{answer, answer_by, bare, done};
ghost use Rattle.voucher.specs.declared.voucher.State.TheVariants.{Balanced};
ghost use Rattle.month_voucher.specs.Costs.{lines_rule, fill_rule, cost_rule};

use refusal::Fault;
use voucher::voucher::Voucher;

/// Adds one line a head, from the first head on.
fn add_lines(voucher: &mut Voucher, cost: [i64; 6]) -> Result<(), Fault>
    ensures answered { answer result ≡ bare (lines_rule voucher.old.amounts 1 cost) }
    ensures amounts { OnOk result (lines_rule voucher.old.amounts 1 cost ≡ done voucher.new.amounts) }
    ensures control { voucher.new.control ≡ voucher.old.control }
{
    for (i, amount) in cost.iter().enumerate() {
        voucher.line(i as u32 + 1, *amount)?;
    }
    Ok(())
}

/// Adds the lines and balances.
fn fill(voucher: &mut Voucher, cost: [i64; 6]) -> Result<(), Fault>
    ensures answered { answer result ≡ bare (fill_rule voucher.old.control voucher.old.amounts cost) }
    ensures amounts { OnOk result (fill_rule voucher.old.control voucher.old.amounts cost ≡ done voucher.new.amounts) }
    ensures state { OnOk result (voucher.new.state ≡ Balanced) }
    ensures control { voucher.new.control ≡ voucher.old.control }
{
    add_lines(voucher, cost)?;
    voucher.balance()
}

/// A balanced voucher of a month's costs, which add up to the control total; where it is refused, the
/// voucher is struck out.
pub fn cost_voucher(control: i64, cost: [i64; 6]) -> Result<Voucher, Fault>
    ensures answered { answer_by (λ v. v.amounts) result ≡ cost_rule control cost }
    ensures balanced { IfOk result (λ v. v.state ≡ Balanced) }
    ensures whole { IfOk result (λ v. (v.control ≡ control) × (v.amounts ≡ cost) × (sum_z cost ≡ control)) }
{
    let mut voucher = Voucher::open(control)?;
    if let Err(fault) = fill(&mut voucher, cost) {
        let _ = voucher.strike();
        return Err(fault);
    }
    Ok(voucher)
}
