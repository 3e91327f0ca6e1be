//! The run of a journal's orders on one ledger.
ghost use Rattle.std.specs.Prelude.{◌≡◌, ◌*◌, map, IfOk};
ghost use Rattle.refusal.specs.Answers.{bare};
ghost use Rattle.journal_text.specs.Answered.{Answered};
ghost use Rattle.journal_run.specs.Deeds.{opens, opening, terms_by, month_terms, first_world};
ghost use Rattle.journal_run.specs.Meanings.{order_deed};
ghost use Rattle.journal_run.specs.Runs.{IsRunOf};

use crate::run_result::RunResult;
use bottom_books::fact_book::FactBook;
use journal_text::unread::Unread;
use ledger::ledger::Ledger;
use ledger::line::{Line, MEMBER_LINES};
use limits::MOST_TEXT_MEMBERS;
use month_bill::costs::month_sheet;
use month_text::month::Month;
use refusal::{Layer, Refusal};
use runs::done::Done;
use runs::order::Order;
use runs::run::run;
use sharing::rule::Rule;
use sharing::with_rule;
use std::alloc::Global;

/// Runs orders by a rule, on a ledger that the first month's terms open.
fn run_by<R: Rule + Copy + Drop>(
    heap: Global,
    rule: R,
    first: &Month,
    orders: &[Order<FactBook>],
) -> Result<RunResult, Unread>
    ensures answered { Answered (λ _. tt) result (bare (opens first.now)) }
    ensures ran { IfOk result (λ ran. IsRunOf (terms_by (R.shares rule) R.STEP first.now) (first_world first.now) (map order_deed orders.now) ran) }
    ensures wide { IfOk result (λ ran. ran.width ≡ 13 * first.now.count) }
{
    let members = first.count;
    if members == 0 || members > MOST_TEXT_MEMBERS {
        return Err(Unread::Line(Layer::Ledger.refuses(Refusal::Count)));
    }
    let width = 13 * members;
    let Some(cells) = orders.len().checked_mul(width) else {
        return Err(Unread::Memory);
    };
    let sheet = month_sheet(first)?;
    let blank = Line { units: 0, cents: 0 };
    let mut file = vec![in heap; blank; MEMBER_LINES * members]?;
    let mut statements = vec![in heap; 0i64; cells]?;
    let mut outcomes = vec![in heap; Ok(Done::Booked); orders.len()]?;
    let mut ledger = Ledger::blank(rule);
    run(
        &mut ledger,
        rule,
        sheet,
        members as u32,
        first.month,
        orders,
        file.as_mut_slice(),
        statements.as_mut_slice(),
        outcomes.as_mut_slice(),
    )?;
    Ok(RunResult {
        width,
        outcomes,
        statements,
        balances: ledger.balances(),
        waiting: ledger.waiting(),
    })
}

/// Runs orders by the first month's rule.
pub(crate) fn run_orders(
    heap: Global,
    first: &Month,
    orders: &[Order<FactBook>],
) -> Result<RunResult, Unread>
    ensures answered { Answered (λ _. month_terms first.now) result (opening first.now) }
    ensures ran { IfOk result (λ ran. IsRunOf (month_terms first.now) (first_world first.now) (map order_deed orders.now) ran) }
    ensures wide { IfOk result (λ ran. ran.width ≡ 13 * first.now.count) }
{
    with_rule!(first.rule, |rule| run_by(heap, rule, first, orders))
}
