//! The lines that a bill and a resettlement write.
ghost use Rattle.std.specs.Prelude.{◌≡◌, ℕ, ◌*◌, ◌<◌, List, length};
ghost use Rattle.ledger.specs.Files.{GivesUnits, lines_of, units_by_component};

use crate::line::Line;
use statement::component::Component;

/// Writes lines of units and cents, where a function gives the units of each place.
// A function of the place, so that no column is copied.
pub(crate) fn write_lines<F: Fn(usize) -> u32>(units: F, cents: &[i64], lines: &mut [Line])
    requires units { (i : ℕ) → i < length cents.now → F.pre units i }
    requires lines { length lines.old ≡ length cents.now }
    ensures { (us : List ℕ) → length us ≡ length cents.now → GivesUnits (F.post units) us → lines.new ≡ lines_of us cents.now }
{
    for (i, cents) in cents.iter().enumerate() {
        lines[i] = Line {
            units: units(i),
            cents: *cents,
        };
    }
}

/// Writes the lines of a month: the units of each component, and the cells of the statement.
pub(crate) fn write_slot(units: &[[u32; 7]], cells: &[i64], slot: &mut [Line])
    requires cells { length cells.now ≡ 13 * length units.now }
    requires slot { length slot.old ≡ 13 * length units.now }
    ensures { slot.new ≡ lines_of (units_by_component units.now 13) cells.now }
{
    let members = units.len();
    for place in 0..13 {
        let start = place * members;
        let end = start + members;
        let kind = Component { place }.kind().place;
        write_lines(
            |i| units[i][kind],
            &cells[start..end],
            &mut slot[start..end],
        );
    }
}
