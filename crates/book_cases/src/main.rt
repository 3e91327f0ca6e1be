//! Books at their edges: what they answer, printed line by line.
#![tactic(auto)]

mod flat_book;

use crate::flat_book::FlatBook;
use book::book::{Book, Correctable};
use bottom_books::fact_book::FactBook;
use bottom_books::standing::Standing;
use bottom_books::standing_book::StandingBook;
use bottom_books::table_book::TableBook;
use corrections::layer::Corrections;
use either_book::EitherBook;
use refusal::Fault;
use std::io;
use units::facts::Facts;

/// Prints the units of a pair, or the number of the refusal.
fn show<B: Book>(rt: &HostRuntime, name: &str, book: &B, kind: u32, member: u32) -> io::Result<()> {
    match book.units(kind, member) {
        Ok(units) => println!(rt; "{name} {kind},{member}: {units}"),
        Err(fault) => {
            let refusal = fault.refusal;
            println!(rt; "{name} {kind},{member}: refused {refusal}")
        }
    }
}

// The program of FERC cases has the like; a crate of its own for these lines is no plainer.
/// Prints whether a call was accepted.
fn print_answer(rt: &HostRuntime, name: &str, answer: Result<(), Fault>) -> io::Result<()> {
    match answer {
        Ok(()) => println!(rt; "{name}: accepted"),
        Err(fault) => {
            let refusal = fault.refusal;
            println!(rt; "{name}: refused {refusal}")
        }
    }
}

/// Prints whether a book takes corrections of a pair.
fn taken<B: Correctable>(
    rt: &HostRuntime,
    name: &str,
    book: &B,
    kind: u32,
    member: u32,
) -> io::Result<()> {
    let takes = book.takes(kind, member);
    println!(rt; "{name} takes {kind},{member}: {takes}")
}

/// A count of 4 invoices means 4, whatever office encoded the book.
fn table(rt: &HostRuntime) -> io::Result<TableBook> {
    let mut book = TableBook::blank();
    print_answer(rt, "table of no members", book.fill(24_277, &[]))?;
    print_answer(
        rt,
        "table before the first month",
        book.fill(24_276, &[[0; 7]]),
    )?;
    print_answer(
        rt,
        "table above the most units",
        book.fill(24_277, &[[2_000_000_001; 7]]),
    )?;
    print_answer(
        rt,
        "table of ten members",
        book.fill(24_277, &[[1, 2, 3, 4, 5, 6, 4]; 10]),
    )?;
    show(rt, "table", &book, 7, 0)?;
    show(rt, "table", &book, 8, 0)?;
    show(rt, "table", &book, 7, 10)?;
    Ok(book)
}

/// Corrections to the edges of the range, and one past each.
fn edges(rt: &HostRuntime, mut book: TableBook) -> io::Result<()> {
    print_answer(rt, "down to 0", book.correct(1, 0, -1))?;
    print_answer(rt, "below 0", book.correct(1, 0, -1))?;
    print_answer(rt, "up to the most", book.correct(1, 0, 2_000_000_000))?;
    print_answer(rt, "above the most", book.correct(1, 0, 1))?;
    print_answer(rt, "beyond any amount", book.correct(9, 99, 2_000_000_001))?;
    print_answer(rt, "of no kind", book.correct(0, 0, 1))?;
    print_answer(rt, "of no member", book.correct(1, 10, 1))?;
    show(rt, "table", &book, 1, 0)?;
    show(rt, "table", &book, 1, 1)
}

/// Corrects one pair after the other, from the first kind of the first member on.
fn correct_pairs<B: Correctable>(book: &mut B, from: u32, to: u32) -> u32 {
    let mut accepted = 0u32;
    // A loop and no filter with a count, as each pair changes the book.
    for pair in from..to {
        if book.correct(pair % 7 + 1, pair / 7, 10).is_ok() {
            accepted = accepted.saturating_add(1);
        }
    }
    accepted
}

/// The 64th pair and the 65th; a pair corrected twice; a layer over a layer.
fn layers(rt: &HostRuntime, book: TableBook) -> io::Result<()> {
    let mut layer = Corrections::over(book);
    let accepted = correct_pairs(&mut layer, 0, 64);
    println!(rt; "pairs kept: {accepted}")?;
    print_answer(rt, "a 65th pair", layer.correct(2, 9, 1))?;
    print_answer(rt, "a kept pair again", layer.correct(1, 0, 5))?;
    show(rt, "layer", &layer, 1, 0)?;
    show(rt, "layer", &layer, 2, 9)?;
    show(rt, "layer", &layer, 3, 9)?;
    let mut upper = Corrections::over(layer);
    print_answer(rt, "the 65th pair above", upper.correct(2, 9, 1))?;
    show(rt, "upper", &upper, 2, 9)?;
    show(rt, "upper", &upper, 1, 0)
}

/// Corrects the first kind of the first member again and again, by 0 and by 1 in turn.
fn correct_one_pair<B: Correctable>(book: &mut B, times: u32) -> u32 {
    let mut accepted = 0u32;
    // A loop and no filter with a count, as each correction changes the book.
    for time in 0..times {
        if book.correct(1, 0, i64::from(time % 2)).is_ok() {
            accepted = accepted.saturating_add(1);
        }
    }
    accepted
}

/// A pair that is corrected 70 times counts once, and one that is refused does not count: 63 others
/// are accepted after them, and then no more.
fn counted_pairs(rt: &HostRuntime, book: TableBook) -> io::Result<()> {
    taken(rt, "table", &book, 9, 99)?;
    let mut layer = Corrections::over(book);
    taken(rt, "layer", &layer, 0, 10)?;
    let times = correct_one_pair(&mut layer, 70);
    println!(rt; "corrections of one pair: {times}")?;
    print_answer(rt, "another below 0", layer.correct(2, 1, -3))?;
    taken(rt, "layer", &layer, 2, 9)?;
    let accepted = correct_pairs(&mut layer, 1, 64);
    println!(rt; "other pairs kept: {accepted}")?;
    taken(rt, "layer", &layer, 2, 9)?;
    taken(rt, "layer", &layer, 0, 10)?;
    taken(rt, "layer", &layer, 1, 0)?;
    taken(rt, "layer", &layer, 1, 9)?;
    print_answer(rt, "a 65th pair", layer.correct(2, 9, 0))?;
    print_answer(rt, "the last pair again", layer.correct(1, 9, 5))?;
    show(rt, "layer", &layer, 1, 0)?;
    show(rt, "layer", &layer, 1, 9)?;
    show(rt, "layer", &layer, 2, 9)?;
    let upper = Corrections::over(layer);
    taken(rt, "upper", &upper, 2, 9)
}

/// Standing megawatts at the most hours, and a book that is one of two.
fn others(rt: &HostRuntime, table: TableBook) -> io::Result<()> {
    let member = Standing {
        transmission: 1_000_000,
        ftr: 0,
        bids: 7,
        energy: 2,
        segments: 0,
        capacity: 1_000_000,
        invoices: 1,
    };
    let mut book = StandingBook::blank();
    print_answer(rt, "746 hours", book.fill(24_277, 746, 31, &[member]))?;
    print_answer(rt, "745 hours", book.fill(24_277, 745, 31, &[member]))?;
    show(rt, "standing", &book, 1, 0)?;
    show(rt, "standing", &book, 6, 0)?;
    let mut facts = FactBook::blank();
    let row = Facts::from([300, 100, 5, 6, 0, 10, 2, 0, 30, 0, 4]);
    print_answer(rt, "facts", facts.fill(24_278, &[row]))?;
    show(rt, "facts", &facts, 3, 0)?;
    show(rt, "facts", &facts, 4, 0)?;
    let books = [EitherBook::First(facts), EitherBook::Second(table)];
    for one in &books {
        show(rt, "either", one, 7, 0)?;
    }
    Ok(())
}

/// A book of one's own, and the counts of members that it may have.
fn flat(rt: &HostRuntime) -> io::Result<()> {
    for count in [0, 3, 200, 201] {
        let Some(book) = FlatBook::of(24_277, count, 5) else {
            println!(rt; "flat book of {count}: none")?;
            continue;
        };
        println!(rt; "flat book of {count}")?;
        show(rt, "flat", &book, 7, 2)?;
        show(rt, "flat", &book, 8, 2)?;
        show(rt, "flat", &book, 7, count)?;
    }
    Ok(())
}

fn main(rt: HostRuntime) -> io::Result<()> {
    let book = table(&rt)?;
    edges(&rt, book)?;
    layers(&rt, book)?;
    others(&rt, book)?;
    counted_pairs(&rt, book)?;
    flat(&rt)
}
