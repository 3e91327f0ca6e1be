//! The line that an entry begins with.
ghost use Rattle.std.specs.Prelude.{◌≡◌};
ghost use Rattle.journal_text.specs.Pieces.{begins, component_of, action_of};

use crate::entry::Action;

/// Whether a line is meant to begin an entry; no line of a month's text begins so.
pub(crate) fn begins_entry(line: &[u8]) -> bool
    ensures { result ≡ begins line.now }
{
    line.starts_with(b"bill") || line.starts_with(b"resettle=")
}

/// A component of one to three digits without leading zeros, up to the end of its line.
#[tactic(auto, using(crate::proofs::Components::leading, crate::proofs::Components::long))]
fn component(s: &[u8]) -> Option<u32>
    ensures { result ≡ component_of s.now }
{
    match s {
        [ones @ b'0'..=b'9', b'\n'] => Some(u32::from(*ones - b'0')),
        [tens @ b'1'..=b'9', ones @ b'0'..=b'9', b'\n'] => {
            Some(10 * u32::from(*tens - b'0') + u32::from(*ones - b'0'))
        }
        [
            hundreds @ b'1'..=b'9',
            tens @ b'0'..=b'9',
            ones @ b'0'..=b'9',
            b'\n',
        ] => {
            let upper = 10 * u32::from(*hundreds - b'0') + u32::from(*tens - b'0');
            Some(10 * upper + u32::from(*ones - b'0'))
        }
        _ => None,
    }
}

/// The action that an entry's line asks for.
pub(crate) fn entry_action(line: &[u8]) -> Option<Action>
    ensures { result ≡ action_of line.now }
{
    if line == b"bill\n".as_slice() {
        return Some(Action::Bill);
    }
    let number = line.strip_prefix(b"resettle=")?;
    component(number).map(Action::Resettle)
}
