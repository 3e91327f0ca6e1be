//! A journal cut into its entries, before their months are read.
ghost use Rattle.std.specs.Prelude.{◌≡◌, ◌<◌, ◌≤◌, min, length, take, drop, IfSome, MatchOption, [], ◌∷◌, ◌++◌};
ghost use Rattle.std.specs.Option.{option_map};
ghost use Rattle.month_text.specs.OneSpelling.{breaks};
ghost use Rattle.journal_text.specs.Pieces.{lines, first_action, month_of, from_entry, most_lines};

use crate::entry::Action;
use crate::entry_lines::{begins_entry, entry_action};

/// The bytes of the longest line that asks for something, as `resettle=999` does with its byte 10.
const LONGEST_ENTRY_LINE: usize = 13;

/// The first entry of a text: its action, its month's text, and the entries after it.
#[derive(Clone, Copy)]
pub(crate) struct Piece<'a> {
    pub action: Action,
    pub month: &'a [u8],
    pub rest: &'a [u8],
}

/// The first line, with the byte 10 that ends it, and the text after it.
fn first_line(text: &[u8]) -> Option<(&[u8], &[u8])>
    ensures cut { MatchOption result (lines text.now ≡ []) (λ p. lines text.now ≡ p.0.now ∷ lines p.1.now) }
    ensures whole { IfSome result (λ p. text.now ≡ p.0.now ++ p.1.now) }
    ensures shorter { IfSome result (λ p. length p.1.now < length text.now) }
{
    let line = text.split_inclusive(|byte| *byte == b'\n').next()?;
    Some(text.split_at(line.len()))
}

/// How many bytes come before the next line that begins an entry. A line's end is looked for only where
/// the line begins none.
fn month_length(text: &[u8]) -> usize
    ensures within { result ≤ length text.now }
    ensures month { take result text.now ≡ month_of (lines text.now) }
    ensures rest { lines (drop result text.now) ≡ from_entry (lines text.now) }
{
    let mut length = 0;
    let mut rest = text;
    while !begins_entry(rest) {
        let Some((line, after)) = first_line(rest) else {
            break;
        };
        length += line.len();
        rest = after;
    }
    length
}

/// What the first line asks for, and the text after it. No more is read of it than one byte beyond the
/// longest line that asks for something.
fn entry_line(text: &[u8]) -> Option<(Action, &[u8])>
    ensures action { option_map (λ p. p.0) result ≡ first_action (lines text.now) }
    ensures rest { IfSome result (λ p. lines p.1.now ≡ drop 1 (lines text.now)) }
    ensures shorter { IfSome result (λ p. length p.1.now < length text.now) }
{
    let front = &text[..text.len().min(LONGEST_ENTRY_LINE + 1)];
    let (line, _) = first_line(front)?;
    let action = entry_action(line)?;
    Some((action, text.split_at(line.len()).1))
}

/// The first entry; nothing where the first line begins none.
pub(crate) fn first_piece(text: &[u8]) -> Option<Piece<'_>>
    ensures action { option_map (λ p. p.action) result ≡ first_action (lines text.now) }
    ensures month { IfSome result (λ p. p.month.now ≡ month_of (drop 1 (lines text.now))) }
    ensures rest { IfSome result (λ p. lines p.rest.now ≡ from_entry (drop 1 (lines text.now))) }
    ensures shorter { IfSome result (λ p. length p.rest.now < length text.now) }
{
    let (action, after) = entry_line(text)?;
    let end = month_length(after);
    let (month, rest) = after.split_at(end);
    Some(Piece {
        action,
        month,
        rest,
    })
}

/// How many lines end in a text.
pub(crate) fn line_count(text: &[u8]) -> u32
    ensures { result ≡ min (breaks text.now) most_lines }
{
    let lines = text.iter().filter(|byte| **byte == b'\n').count();
    u32::try_from(lines).unwrap_or(u32::MAX)
}
