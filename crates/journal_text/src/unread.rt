//! Why a journal was not read.
ghost use Rattle.std.specs.Prelude.{◌≡◌};

use refusal::Fault;
use std::alloc::{AllocError, AllocFailed};

/// A line that is refused, or no memory for the entries.
#[derive(Debug, Drop)]
pub enum Unread {
    Line(Fault),
    Memory,
}

impl From<Fault> for Unread {
    ghost use Rattle.journal_text.specs.declared.unread.Unread.{Unread};

    ghost from_gives = { λ fault unread. unread ≡ Unread.Line fault };

    fn from(fault: Fault) -> Unread {
        Unread::Line(fault)
    }
}

impl From<AllocError> for Unread {
    ghost use Rattle.journal_text.specs.declared.unread.Unread.{Unread};

    ghost from_gives = { λ _ unread. unread ≡ Unread.Memory };

    fn from(_error: AllocError) -> Unread {
        Unread::Memory
    }
}

impl<T: Drop> From<AllocFailed<T>> for Unread {
    ghost use Rattle.journal_text.specs.declared.unread.Unread.{Unread};

    ghost from_gives = { λ _ unread. unread ≡ Unread.Memory };

    fn from(_error: AllocFailed<T>) -> Unread {
        Unread::Memory
    }
}
