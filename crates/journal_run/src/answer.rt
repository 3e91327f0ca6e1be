//! The text that answers a journal.
ghost use Rattle.std.specs.Prelude.{◌≡◌, IfOk, string_bytes};
ghost use Rattle.std.specs.List.{All};
ghost use Rattle.refusal.specs.Answers.{done, bare};
ghost use Rattle.month_text.specs.Accepted.{InRange};
ghost use Rattle.journal_text.specs.Answered.{Answered};
ghost use Rattle.journal_run.specs.Journals.{entries_text, run_journal, RunOnceRead, journal_answer};

use crate::orders::journal_orders;
use crate::running::run_orders;
use crate::text::ran_text;
use charges_text::refusals::refusal_text;
use journal_text::entry::Entry;
use journal_text::reader::read_journal;
use journal_text::unread::Unread;
use std::alloc::{AllocError, Global};

/// Runs the orders of all entries on a ledger that the first month opens, and then prints.
fn entries_text(heap: Global, entries: &[Entry]) -> Result<String, Unread>
    ensures answered { Answered (λ lines. string_bytes lines) result (entries_text entries.now) }
    ensures run { All (λ entry. InRange entry.month) entries.now → bare (entries_text entries.now) ≡ done tt }
{
    let Some(first) = entries.first() else {
        return Ok(String::new(heap));
    };
    let given = journal_orders(heap, entries)?;
    let ran = run_orders(heap, &first.month, given.orders.as_slice())?;
    Ok(ran_text(heap, given.entries.as_slice(), &ran)?)
}

/// Reads all entries, and runs their orders.
fn run_journal(heap: Global, text: &[u8]) -> Result<String, Unread>
    ensures answered { Answered (λ lines. string_bytes lines) result (run_journal text.now) }
    ensures run { RunOnceRead text.now }
{
    let entries = read_journal(heap, text)?;
    entries_text(heap, entries.as_slice())
}

/// What a journal came to, or the line of its refusal.
pub fn answer(heap: Global, text: &[u8]) -> Result<String, AllocError>
    ensures answered { IfOk result (λ lines. string_bytes lines ≡ journal_answer text.now) }
    ensures run { RunOnceRead text.now }
{
    match run_journal(heap, text) {
        Ok(text) => Ok(text),
        Err(Unread::Line(fault)) => refusal_text(heap, fault),
        Err(Unread::Memory) => Err(AllocError),
    }
}
