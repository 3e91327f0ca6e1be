//! The reader of a month's text.
ghost use Rattle.std.specs.Prelude.{◌≡◌, IfOk};
ghost use Rattle.refusal.specs.Answers.{answer, answer_by};
ghost use Rattle.month_text.specs.Accepted.{InRange, Weighed};
ghost use Rattle.month_text.specs.Months.{rule_at, sheet_at, month_at, read_month};
ghost use Rattle.month_text.specs.OneSpelling.{AsSpelled, OneSpelling, LineCount};

use crate::lines::after_word;
use crate::members::{FIRST, members};
use crate::month::{Month, SheetLines};
use crate::ranges::{amounts, naturals, number_line, off_layout, weights};
use limits::{
    FIRST_MONTH, LAST_MONTH, MOST_CENTS, MOST_CONTROL, MOST_TEXT_BYTES, MOST_TEXT_MEMBERS,
};
use refusal::Fault;
use sharing::name::RuleName;

/// The sharing rule's line, and the text after it.
fn rule_line(s: &[u8]) -> Result<(RuleName, &[u8]), Fault>
    ensures { answer_by (λ p. (p.0, p.1.now)) result ≡ rule_at s.now }
{
    if let Some(rest) = after_word(b"rule=posted\n", s) {
        return Ok((RuleName::Posted, rest));
    }
    let rest = after_word(b"rule=ratio\n", s).ok_or(off_layout(2))?;
    Ok((RuleName::Ratio, rest))
}

/// The sheet's lines, and the text after them.
fn sheet_lines(s: &[u8]) -> Result<(SheetLines, &[u8]), Fault>
    ensures value { answer_by (λ p. (p.0, p.1.now)) result ≡ sheet_at s.now }
    ensures range { IfOk result (λ p. Weighed p.0.division p.0.management p.0.split) }
{
    let (division, s) = weights(b"division", 3, s)?;
    let (management, s) = weights(b"management", 4, s)?;
    let (split, s) = naturals(b"split", 0, 1000, 5, s)?;
    let sheet = SheetLines {
        division,
        management,
        split,
    };
    Ok((sheet, s))
}

/// The lines in their order; each begins where the one before it ended.
fn lines_of(s: &[u8]) -> Result<Month, Fault>
    ensures value { answer result ≡ month_at s.now }
    ensures range { IfOk result (λ m. InRange m) }
{
    let (month, s) = number_line(b"month", FIRST_MONTH, LAST_MONTH, 1, s)?;
    let (rule, s) = rule_line(s)?;
    let (sheet, s) = sheet_lines(s)?;
    let (cost, s) = amounts(b"cost", MOST_CENTS, 6, s)?;
    let ([control], s) = amounts::<1>(b"control", MOST_CONTROL, 7, s)?;
    let (users, s) = number_line(b"users", 1, MOST_TEXT_MEMBERS as u32, 8, s)?;
    let count = users as usize;
    let (members, s) = members(count, s)?;
    if !s.is_empty() {
        return Err(off_layout(FIRST + users));
    }
    Ok(Month {
        month,
        rule,
        sheet,
        cost,
        control,
        count,
        members,
    })
}

/// What a month's text says, or the first line that is refused.
pub fn read(text: &[u8]) -> Result<Month, Fault>
    ensures value { answer result ≡ read_month text.now }
    ensures range { IfOk result (λ m. InRange m) }
    ensures spelled { AsSpelled text.now }
    ensures unique { OneSpelling text.now }
    ensures lines { LineCount text.now }
{
    if text.len() > MOST_TEXT_BYTES {
        return Err(off_layout(0));
    }
    lines_of(text)
}
