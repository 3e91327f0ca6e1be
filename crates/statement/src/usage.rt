//! The units of a month's members.
ghost use Rattle.std.specs.Prelude.{◌≡◌, ◌≤◌, length, sum, take};
ghost use Rattle.statement.specs.Columns.{column};
ghost use Rattle.limits.specs.declared.TheConstants.{MOST_MEMBERS};

use crate::kind::Kind;
use limits::MOST_MEMBERS;

/// A row of units of the seven kinds for each of at most 200 members.
#[derive(Clone, Copy)]
pub(crate) struct Usage<'a> {
    pub rows: &'a [[u32; 7]],
    ghost few: { length rows.now ≤ MOST_MEMBERS },
}

impl Usage<'_> {
    /// The units of a kind, of all members together.
    pub(crate) fn total(&self, kind: Kind) -> u64
        ensures { result ≡ sum (column self.now.rows.now kind.place) }
    {
        self.rows.iter().map(|row| u64::from(row[kind.place])).sum()
    }

    /// The same member by member, in places for the most members.
    pub(crate) fn column(&self, kind: Kind) -> [u32; MOST_MEMBERS]
        ensures { take (length self.now.rows.now) result ≡ column self.now.rows.now kind.place }
    {
        let mut column = [0u32; MOST_MEMBERS];
        for (member, row) in self.rows.iter().enumerate() {
            column[member] = row[kind.place];
        }
        column
    }
}
