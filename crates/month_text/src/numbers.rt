//! Decimal numbers off the front of a text.
ghost use Rattle.std.specs.Prelude.{◌≡◌, ◌≤◌, IfSome};
ghost use Rattle.std.specs.Option.{option_map};
ghost use Rattle.month_text.specs.Spelling.{ReadAsSpelled};
ghost use Rattle.month_text.specs.Numbers.{digits_on, number_at, integer_at};

use crate::month::MOST_NUMBER;

/// The largest number that one digit more may follow.
const MOST_TENTH: u64 = MOST_NUMBER / 10;

/// More digits after `n`. None follows 0, so there are no leading zeros, and there is no twelfth digit.
#[tactic(auto, using(crate::proofs::Steps::digit_steps))]
fn digits_on(n: u64, s: &[u8]) -> Option<(u64, &[u8])>
    requires { n ≤ MOST_NUMBER }
    ensures value { option_map (λ p. (p.0, p.1.now)) result ≡ digits_on n s.now }
    ensures small { IfSome result (λ p. p.0 ≤ MOST_NUMBER) }
{
    let mut n = n;
    let mut s = s;
    while let [digit @ b'0'..=b'9', rest @ ..] = s {
        if n == 0 || n > MOST_TENTH {
            return None;
        }
        n = n * 10 + u64::from(*digit - b'0');
        s = rest;
    }
    Some((n, s))
}

/// The number at the front, and the text after it.
#[tactic(auto, using(crate::proofs::Steps::digit_steps))]
pub(crate) fn number(s: &[u8]) -> Option<(u64, &[u8])>
    ensures value { option_map (λ p. (p.0, p.1.now)) result ≡ number_at s.now }
    ensures small { IfSome result (λ p. p.0 ≤ MOST_NUMBER) }
    ensures spelled { ReadAsSpelled s.now }
{
    match s {
        [digit @ b'0'..=b'9', rest @ ..] => digits_on(u64::from(*digit - b'0'), rest),
        _ => None,
    }
}

/// The number at the front, which may have a sign where `signs` says so, and the text after it.
#[tactic(auto, using(crate::proofs::Steps::sign_steps))]
pub(crate) fn integer(signs: bool, s: &[u8]) -> Option<(i64, &[u8])>
    ensures { option_map (λ p. (p.0, p.1.now)) result ≡ integer_at signs s.now }
{
    match s {
        [b'-', rest @ ..] if signs => {
            let (n, rest) = number(rest)?;
            if n == 0 {
                return None;
            }
            Some((-(n as i64), rest))
        }
        _ => {
            let (n, rest) = number(s)?;
            Some((n as i64, rest))
        }
    }
}
