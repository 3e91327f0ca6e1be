//! The `user` lines of a month's text.
ghost use Rattle.std.specs.Prelude.{◌≡◌, ◌≤◌, length, IfOk};
ghost use Rattle.refusal.specs.Answers.{answer_by};
ghost use Rattle.month_text.specs.Accepted.{Placed};
ghost use Rattle.month_text.specs.Members.{blank, member_at, members_at, places_at};

use crate::month::Member;
use crate::ranges::{naturals, out_of_range};
use limits::{MOST_FACT, MOST_TEXT_MEMBERS};
use refusal::Fault;

/// The line of the first member.
pub(crate) const FIRST: u32 = 9;

/// What stands in the places that no member has.
fn blank() -> Member
    ensures { result ≡ blank }
{
    Member::from([0; 12])
}

/// One member's line, and the text after it.
fn member_line(line_number: u32, last: u32, s: &[u8]) -> Result<(Member, &[u8]), Fault>
    ensures { answer_by (λ p. (p.0, p.1.now)) result ≡ member_at line_number last s.now }
{
    let (numbers, rest) = naturals(b"user", 0, MOST_FACT, line_number, s)?;
    let member = Member::from(numbers);
    if !member.follows(last) {
        return Err(out_of_range(line_number));
    }
    Ok((member, rest))
}

/// A line for each of the places, which they fill in their order, and the text after them.
fn member_lines<'a>(places: &mut [Member], s: &'a [u8]) -> Result<&'a [u8], Fault>
    requires { length places.old ≤ MOST_TEXT_MEMBERS }
    ensures { answer_by (λ t. (places.new, t.now)) result ≡ members_at (length places.old) 9 0 s.now }
{
    let mut rest = s;
    let mut last = 0;
    for (i, place) in places.iter_mut().enumerate() {
        let (member, after) = member_line(FIRST + i as u32, last, rest)?;
        *place = member;
        last = member.account;
        rest = after;
    }
    Ok(rest)
}

/// The lines of `count` members, in the first of 32 places, and the text after them.
pub(crate) fn members<'a>(
    count: usize,
    s: &'a [u8],
) -> Result<([Member; MOST_TEXT_MEMBERS], &'a [u8]), Fault>
    requires { count ≤ MOST_TEXT_MEMBERS }
    ensures value { answer_by (λ p. (p.0, p.1.now)) result ≡ places_at count s.now }
    ensures range { IfOk result (λ p. Placed count p.0) }
{
    let mut members = [blank(); MOST_TEXT_MEMBERS];
    let rest = member_lines(&mut members[..count], s)?;
    Ok((members, rest))
}
