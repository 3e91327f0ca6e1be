//! What a resettlement reads and writes.
ghost use Rattle.std.specs.Prelude.{◌≡◌, ◌≤◌, length, MatchResult, OnOk, unsigned_abs};
ghost use Rattle.refusal.specs.Answers.{answer, done};
ghost use Rattle.ledger.specs.Readings.{reading_of, units_of_kind};
ghost use Rattle.ledger.specs.Files.{file_length};
ghost use Rattle.ledger.specs.States.{account_at};
ghost use Rattle.ledger.specs.Resettling.{kind_rule, resettled_row_rule, row_lines, row_cells, resettled_rule, file_resettled, cells_resettled};

use crate::accounts::{Accounts, slot_of};
use crate::changes::find_changes;
use crate::line::Line;
use crate::resettlement::Resettlement;
use crate::rows::write_lines;
use book::book::Book;
use cents::weights::total;
use limits::{MOST_CENTS, MOST_MEMBERS, MOST_UNITS};
use refusal::{Fault, Layer, Refusal};
use sharing::rule::Rule;
use statement::component::Component;
use statement::kind::Kind;

/// Reads the units of a kind, member by member.
// Here and below the lengths of file and statement are tested already.
fn read_kind<B: Book>(book: &B, kind: Kind, out: &mut [u32]) -> Result<(), Fault>
    requires { length out.old ≡ B.count book.now }
    ensures answered { answer result ≡ done tt }
    ensures units { out.new ≡ units_of_kind (reading_of B.Book book.now) kind.place }
{
    for (member, units) in out.iter_mut().enumerate() {
        *units = book.units(kind.number(), member as u32)?;
    }
    Ok(())
}

/// Reads the units of a kind and shares a pool by them.
fn share_again<R: Rule, B: Book>(
    rule: &R,
    pool: i64,
    kind: Kind,
    book: &B,
    units: &mut [u32],
    fresh: &mut [i64],
) -> Result<(), Fault>
    requires units { length units.old ≡ B.count book.now }
    requires fresh { length fresh.old ≡ B.count book.now }
    ensures answered { answer result ≡ kind_rule kind.place (units_of_kind (reading_of B.Book book.now) kind.place) }
    ensures read { OnOk result (units.new ≡ units_of_kind (reading_of B.Book book.now) kind.place) }
    ensures shared { OnOk result
        (fresh.new ≡ R.shares rule.now pool (units_of_kind (reading_of B.Book book.now) kind.place)) }
{
    read_kind(book, kind, units)?;
    if total(units) > MOST_UNITS {
        return Err(Layer::Ledger.refuses_at(Refusal::Total, kind.number()));
    }
    rule.share(pool, units, fresh);
    Ok(())
}

/// Resettles one row of lines, and gives the balance that is left. Refused, lines and cells stay.
fn resettle_row<R: Rule, B: Book>(
    rule: &R,
    given: Resettlement,
    book: &B,
    lines: &mut [Line],
    cells: &mut [i64],
) -> Result<i64, Fault>
    requires lines { length lines.old ≡ B.count book.now }
    requires cells { length cells.old ≡ B.count book.now }
    ensures answered { answer result
        ≡ resettled_row_rule (R.shares rule.now) given.pool given.balance (reading_of B.Book book.now) given.component.place lines.old }
    ensures lines { MatchResult result
        (λ _. lines.new ≡ row_lines (R.shares rule.now) given.pool (reading_of B.Book book.now) given.component.place)
        (λ _. lines.new ≡ lines.old) }
    ensures cells { MatchResult result
        (λ _. cells.new ≡ row_cells (R.shares rule.now) given.pool (reading_of B.Book book.now) given.component.place lines.old)
        (λ _. cells.new ≡ cells.old) }
{
    let members = cells.len();
    // A place for each member, as many as there may be.
    let mut units = [0u32; MOST_MEMBERS];
    let units = &mut units[..members];
    let mut fresh = [0i64; MOST_MEMBERS];
    let fresh = &mut fresh[..members];
    let mut changes = [0i64; MOST_MEMBERS];
    let changes = &mut changes[..members];
    share_again(rule, given.pool, given.component.kind(), book, units, fresh)?;
    let left = find_changes(given, fresh, lines, changes)?;
    cells.copy_from_slice(changes);
    write_lines(|i| units[i], fresh, lines);
    Ok(left)
}

/// Resettles a component for the book's month, which is on file.
pub(crate) fn resettle_lines<R: Rule, B: Book>(
    rule: &R,
    accounts: &Accounts,
    component: Component,
    book: &B,
    file: &mut [Line],
    statement: &mut [i64],
) -> Result<i64, Fault>
    requires members { accounts.now.members ≤ MOST_MEMBERS }
    requires count { B.count book.now ≡ accounts.now.members }
    requires file { length file.old ≡ file_length accounts.now.members }
    requires statement { length statement.old ≡ accounts.now.members }
    requires balance { unsigned_abs (account_at accounts.now component.place).balance ≤ MOST_CENTS }
    ensures answered { answer result
        ≡ resettled_rule (R.shares rule.now) accounts.now file.old (reading_of B.Book book.now) component.place }
    ensures file { MatchResult result
        (λ _. file.new ≡ file_resettled (R.shares rule.now) accounts.now file.old (reading_of B.Book book.now) component.place)
        (λ _. file.new ≡ file.old) }
    ensures cells { MatchResult result
        (λ _. statement.new ≡ cells_resettled (R.shares rule.now) accounts.now file.old (reading_of B.Book book.now) component.place)
        (λ _. statement.new ≡ statement.old) }
{
    let month = book.month();
    let account = accounts.rows[component.place];
    let given = Resettlement {
        component,
        pool: account.pools[slot_of(month)],
        balance: account.balance,
    };
    let start = accounts.row_start(month, component);
    let end = start + accounts.members as usize;
    resettle_row(rule, given, book, &mut file[start..end], statement)
}
