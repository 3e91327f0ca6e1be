//! Lines of a text: a key, `=`, numbers between commas, and byte 10.
ghost use Rattle.std.specs.Prelude.{◌≡◌, [], ◌∷◌};
ghost use Rattle.std.specs.Option.{option_map};
ghost use Rattle.month_text.specs.Lines.{past, stop, fields_at, line_at};

use crate::numbers::integer;

/// The text after `word`, where it begins with it.
// Not `strip_prefix`: this reader takes its text apart by slice patterns, a byte at a time.
#[tactic(auto, using(crate::proofs::Steps::word_steps))]
pub(crate) fn after_word<'a>(word: &[u8], s: &'a [u8]) -> Option<&'a [u8]>
    ensures { option_map (λ t. t.now) result ≡ past word.now s.now }
{
    let mut rest = s;
    for letter in word {
        match rest {
            [first, after @ ..] if *first == *letter => rest = after,
            _ => return None,
        }
    }
    Some(rest)
}

/// The text after the byte that ends a number: byte 10 after a line's last, and a comma where `left` more follow.
fn after_stop(left: usize, s: &[u8]) -> Option<&[u8]>
    ensures { option_map (λ t. t.now) result ≡ past (stop left ∷ []) s.now }
{
    match s {
        [b',', rest @ ..] if left > 0 => Some(rest),
        [b'\n', rest @ ..] if left == 0 => Some(rest),
        _ => None,
    }
}

/// `K` numbers: a comma after each, and byte 10 after the last.
fn fields<'a, const K: usize>(signs: bool, s: &'a [u8]) -> Option<([i64; K], &'a [u8])>
    ensures { option_map (λ p. (p.0, p.1.now)) result ≡ fields_at signs K s.now }
{
    let mut numbers = [0i64; K];
    let mut rest = s;
    for (i, number) in numbers.iter_mut().enumerate() {
        let (read, after) = integer(signs, rest)?;
        rest = after_stop(K - (i + 1), after)?;
        *number = read;
    }
    Some((numbers, rest))
}

/// A whole line of `K` numbers behind its key, with signs or without.
pub(crate) fn line<'a, const K: usize>(
    key: &[u8],
    signs: bool,
    s: &'a [u8],
) -> Option<([i64; K], &'a [u8])>
    ensures { option_map (λ p. (p.0, p.1.now)) result ≡ line_at key.now signs K s.now }
{
    match after_word(key, s)? {
        [b'=', rest @ ..] => fields(signs, rest),
        _ => None,
    }
}
