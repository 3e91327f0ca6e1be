//! The text of a run.
ghost use Rattle.std.specs.Prelude.{◌≡◌, ◌*◌, ◌≤◌, length, IfOk, string_bytes};
ghost use Rattle.journal_run.specs.Meanings.{entries_at};
ghost use Rattle.journal_run.specs.JournalRuns.{CountsInRange, IsRunText};

use crate::printing::order_text;
use crate::run_result::RunResult;
use crate::sums::{RunAccount, Sums};
use journal_text::entry::Entry;
use std::alloc::{AllocError, Global};

/// What every order came to, and the account. An order has the entry that gave it, its outcome, and
/// `width` cells of the statements.
pub(crate) fn ran_text(
    heap: Global,
    entries: &[&Entry],
    ran: &RunResult,
) -> Result<String, AllocError>
    requires counts { CountsInRange (entries_at entries.now) }
    requires paired { length ran.now.outcomes.items ≡ length entries.now }
    requires wide { 13 ≤ ran.now.width }
    requires cells { length ran.now.statements.items ≡ length ran.now.outcomes.items * ran.now.width }
    ensures { IfOk result (λ text. IsRunText (entries_at entries.now) ran.now (string_bytes text)) }
{
    let mut text = String::new(heap);
    let mut sums = Sums {
        booked: 0,
        billed: 0,
    };
    for (i, outcome) in ran.outcomes.iter().enumerate() {
        let entry = entries[i];
        let cells = &ran.statements[i * ran.width..(i + 1) * ran.width];
        let part = order_text(heap, entry, *outcome, cells)?;
        text.push_str(part.as_str())?;
        sums.add(entry, *outcome, cells);
    }
    let account = RunAccount {
        sums,
        balances: ran.balances,
        waiting: ran.waiting,
    };
    write!(text, "{account}")?;
    Ok(text)
}
