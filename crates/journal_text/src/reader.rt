//! The reader of a journal.
ghost use Rattle.std.specs.Prelude.{◌≡◌, ◌<◌, ◌≤◌, cond, length, IfSome, IfOk, vec_len, drop};
ghost use Rattle.std.specs.List.{All};
ghost use Rattle.std.specs.Option.{option_map, option_copied};
ghost use Rattle.refusal.specs.Answers.{Answer, answer, next};
ghost use Rattle.month_text.specs.Accepted.{InRange};
ghost use Rattle.month_text.specs.Numbers.{bind};
ghost use Rattle.month_text.specs.Ranges.{out_of_range};
ghost use Rattle.month_text.specs.Months.{read_month};
ghost use Rattle.journal_text.specs.Pieces.{lines, first_action, month_of, from_entry};
ghost use Rattle.journal_text.specs.Journals.{at_line, after_first, terms_hold, line_entry, read_journal};
ghost use Rattle.journal_text.specs.Answered.{Answered};

use crate::entry::{Action, Entry};
use crate::pieces::{Piece, first_piece, line_count};
use crate::terms::same_terms;
use crate::unread::Unread;
use month_text::reader::read;
use refusal::{Fault, Layer, Refusal};
use std::alloc::Global;

/// The next piece. Nothing was billed before the first entry, so that one is a bill.
fn next_piece<'a>(first: Option<&Entry>, text: &'a [u8]) -> Option<Piece<'a>>
    ensures action { option_map (λ p. p.action) result ≡ bind (first_action (lines text.now)) (after_first (option_copied first.entry)) }
    ensures month { IfSome result (λ p. p.month.now ≡ month_of (drop 1 (lines text.now))) }
    ensures rest { IfSome result (λ p. lines p.rest.now ≡ from_entry (drop 1 (lines text.now))) }
    ensures shorter { IfSome result (λ p. length p.rest.now < length text.now) }
{
    let piece = first_piece(text)?;
    match piece.action {
        Action::Resettle(_) if first.is_none() => None,
        _ => Some(piece),
    }
}

/// The entry of a piece whose first line is `line`; a fault's line counts over the whole journal.
fn read_entry(piece: &Piece<'_>, line: u32) -> Result<Entry, Fault>
    ensures value { answer result ≡ next (at_line line (read_month piece.now.month.now)) (λ m. Answer.done (line_entry line piece.now.action m)) }
    ensures range { IfOk result (λ entry. InRange entry.month) }
{
    let month = read(piece.month).map_err(|fault| Fault {
        place: line.saturating_add(fault.place),
        ..fault
    })?;
    Ok(Entry {
        action: piece.action,
        line,
        month,
    })
}

/// The ledger is opened once, on the first entry's terms: other terms would not be used.
fn check_terms(first: Option<&Entry>, entry: &Entry) -> Result<(), Fault>
    ensures { answer result ≡ cond (terms_hold (option_copied first.entry) entry.now.month) (Answer.done tt) (out_of_range entry.now.line) }
{
    if first.is_some_and(|first| !same_terms(&first.month, &entry.month)) {
        return Err(Layer::Text.refuses_at(Refusal::Range, entry.line));
    }
    Ok(())
}

/// All entries of a journal, which has one at least, or the first line that is refused.
pub fn read_journal(heap: Global, text: &[u8]) -> Result<Vec<Entry>, Unread>
    ensures answered { Answered (λ entries. entries.items) result (read_journal text.now) }
    ensures some { IfOk result (λ entries. 1 ≤ vec_len entries) }
    ensures range { IfOk result (λ entries. All (λ entry. InRange entry.month) entries.items) }
{
    let mut entries = Vec::new(heap);
    let mut rest = text;
    let mut line = 1u32;
    loop {
        let Some(piece) = next_piece(entries.first(), rest) else {
            return Err(Unread::Line(Layer::Text.refuses_at(Refusal::Layout, line)));
        };
        let entry = read_entry(&piece, line)?;
        check_terms(entries.first(), &entry)?;
        entries.push(entry)?;
        if piece.rest.is_empty() {
            return Ok(entries);
        }
        let lines = line_count(piece.month).saturating_add(1);
        line = line.saturating_add(lines);
        rest = piece.rest;
    }
}
