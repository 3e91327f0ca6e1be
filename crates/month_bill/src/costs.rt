//! A month's sheet, and its costs on a new ledger.
ghost use Rattle.std.specs.Prelude.{◌≡◌, IfOk};
ghost use Rattle.refusal.specs.Answers.{answer_by, next};
ghost use Rattle.ledger.specs.States.{opened, opening_rule};
ghost use Rattle.month_bill.specs.Bills.{month_sheet, month_heads};

use ledger::ledger::Ledger;
use month_text::month::Month;
use month_voucher::cost_voucher;
use refusal::Fault;
use sharing::rule::Rule;
use tariff::sheet::Sheet;

/// The month's sheet.
pub fn month_sheet(month: &Month) -> Result<Sheet, Fault>
    ensures { answer_by (λ sheet. (sheet.division, sheet.management, sheet.split)) result ≡ month_sheet month.now }
{
    let mut sheet = Sheet::even();
    sheet.lay(
        month.sheet.division,
        month.sheet.management,
        month.sheet.split,
    )?;
    Ok(sheet)
}

/// A new ledger of the month and some members, with the month's costs booked.
pub(crate) fn month_ledger<R: Rule + Copy + Drop>(
    rule: R,
    sheet: Sheet,
    members: u32,
    month: &Month,
) -> Result<Ledger<R>, Fault>
    ensures answered { answer_by (λ ledger. ledger.heads.amounts) result ≡ next (opening_rule members month.now.month) (λ _. month_heads month.now) }
    ensures rule { IfOk result (λ ledger. ledger.rule ≡ rule) }
    ensures sheet { IfOk result (λ ledger. ledger.sheet ≡ sheet) }
    ensures opened { IfOk result (λ ledger. ledger.accounts ≡ opened members month.now.month) }
{
    let mut ledger = Ledger::blank(rule);
    ledger.open(rule, sheet, members, month.month)?;
    let voucher = cost_voucher(month.control, month.cost)?;
    ledger.book(voucher)?;
    Ok(ledger)
}
