//! Reading a month's text, a turn after the other.
use crate::mixing::mixed;
use anyhow::anyhow;
use limits::MOST_TEXT_MEMBERS;
use month_text::month::Member;
use month_text::reader::read;

/// The account and all facts of a member.
fn mixed_member(sum: i64, member: &Member) -> i64 {
    let facts = &member.facts;
    [
        member.account,
        facts.transmission,
        facts.wheel_through,
        facts.generation,
        facts.virtual_mwh,
        facts.ftr,
        facts.obligation_bids,
        facts.option_bids,
        facts.segments,
        facts.capacity_obligation,
        facts.capacity_resource,
        facts.invoices,
    ]
    .iter()
    .fold(sum, |sum, number| mixed(sum, i64::from(*number)))
}

/// Writes a turn's digit in the place of the text's last one.
fn set_last_digit(text: &mut [u8], turn: u32) {
    if let [.., digit, _newline] = text {
        *digit = b'0' + (turn % 10) as u8;
    }
}

/// Reads a text, whose last digit is another each turn.
pub(crate) fn readings(text: &mut [u8], count: u32) -> anyhow::Result<i64> {
    let mut sum = 0i64;
    for turn in 0..count {
        set_last_digit(text, turn);
        let month = read(text).map_err(|_| anyhow!("a text is refused"))?;
        sum = mixed_member(sum, &month.members[turn as usize % MOST_TEXT_MEMBERS]);
        sum = mixed(sum, month.control);
    }
    Ok(sum)
}
