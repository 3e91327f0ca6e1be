//! A FERC year at its edges: what it answers, printed line by line.
#![tactic(auto)]

use bottom_books::table_book::TableBook;
use ferc::rate::YearFigures;
use ferc::year::FercYear;
use refusal::Fault;
use std::io;

/// Prints whether a call was accepted. The test program of the books has this function too: a crate
/// for these lines alone would be longer than both.
fn print_answer(rt: &HostRuntime, name: &str, answer: Result<(), Fault>) -> io::Result<()> {
    match answer {
        Ok(()) => println!(rt; "{name}: accepted"),
        Err(fault) => {
            let refusal = fault.refusal;
            println!(rt; "{name}: refused {refusal}")
        }
    }
}

/// Prints a year's rate, its months and its cents billed.
fn show(rt: &HostRuntime, year: &FercYear) -> io::Result<()> {
    let rate = year.rate();
    let months = year.months();
    let billed = year.billed();
    println!(rt; "rate {rate}, months {months}, billed {billed}")
}

/// A book of two members with these megawatt-hours.
fn hours(first: u32, second: u32) -> TableBook {
    let mut book = TableBook::blank();
    let rows = [[first, 7, 7, 7, 7, 7, 7], [second, 7, 7, 7, 7, 7, 7]];
    let _ = book.fill(24_277, &rows);
    book
}

/// Bills a month and prints both charges.
fn month(rt: &HostRuntime, year: &mut FercYear, first: u32, second: u32) -> io::Result<()> {
    let mut cells = [0i64; 2];
    let answer = year.bill(&hours(first, second), &mut cells);
    let [a, b] = cells;
    println!(rt; "{first} and {second} MWh: {a} and {b}")?;
    print_answer(rt, "month", answer)
}

/// Makes a year of these figures and prints whether it was accepted.
fn made(
    rt: &HostRuntime,
    name: &str,
    year: &mut FercYear,
    [estimate, paid, recovered]: [i64; 3],
    volume: u64,
) -> io::Result<()> {
    let figures = YearFigures {
        estimate,
        paid,
        recovered,
        volume,
    };
    print_answer(rt, name, year.make(figures))
}

/// The ranges, the volume and the rate; refused, the year is as it was.
fn making(rt: &HostRuntime, year: &mut FercYear) -> io::Result<()> {
    made(
        rt,
        "the most cents",
        year,
        [40_000_000_000, 0, 0],
        4_000_000,
    )?;
    made(rt, "a cent more", year, [40_000_000_001, 0, 0], 4_000_000)?;
    made(rt, "the most volume", year, [0, 0, -1], 20_000_000_000)?;
    made(rt, "more volume", year, [0, 0, -1], 20_000_000_001)?;
    made(rt, "no volume", year, [1, 1, 1], 0)?;
    made(rt, "the highest rate", year, [10_000, 0, 0], 1)?;
    made(rt, "a higher rate", year, [10_001, 0, 0], 1)?;
    made(rt, "the lowest rate", year, [0, 0, 10_000], 1)?;
    made(rt, "a lower rate", year, [0, 0, 10_001], 1)?;
    show(rt, year)
}

/// Bills one more month of 150 megawatt-hours and 1.
fn again(year: &mut FercYear) {
    let mut cells = [0i64; 2];
    let _ = year.bill(&hours(150, 1), &mut cells);
}

/// Twelve months and the thirteenth.
fn twelve(rt: &HostRuntime, year: &mut FercYear) -> io::Result<()> {
    made(
        rt,
        "the worked year",
        year,
        [9_000_000, 8_800_000, 8_900_000],
        1_000_000,
    )?;
    show(rt, year)?;
    month(rt, year, 150, 0)?;
    let mut cells = [5i64; 2];
    let mut three = [5i64; 3];
    print_answer(rt, "three cells", year.bill(&hours(1, 1), &mut three))?;
    for _ in 0..11 {
        again(year);
    }
    show(rt, year)?;
    print_answer(rt, "a 13th month", year.bill(&hours(1, 1), &mut cells))?;
    show(rt, year)
}

fn main(rt: HostRuntime) -> io::Result<()> {
    let mut year = FercYear::blank();
    making(&rt, &mut year)?;
    twelve(&rt, &mut year)?;
    made(&rt, "a credit", &mut year, [-9_000_000, 0, 0], 1_000_000)?;
    month(&rt, &mut year, 150, 2_000_000_000)?;
    made(&rt, "a rate of -1", &mut year, [-1, 0, 0], 100)?;
    month(&rt, &mut year, 50, 51)?;
    show(&rt, &year)
}
