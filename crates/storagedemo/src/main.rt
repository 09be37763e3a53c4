// Replays a small worksheet on an ordered table with its matrix, and on a second table of another kind of record,
// and prints what they hold after each step.
#![tactic(auto)]

mod records;
mod sheet;

use crate::records::{Amount, Code, Reading, Visit};
use crate::sheet::{Sheet, Step};
use std::io;
use triangle::row::{Element, Side};

fn code(letter: u8, digit: u8) -> Code {
    Code { letter, digit }
}

fn reading(letter: u8, digit: u8, number: u32) -> Reading {
    Reading {
        code: code(letter, digit),
        number,
    }
}

fn visit(letter: u8, digit: u8, hour: u8, minute: u8) -> Visit {
    Visit {
        code: code(letter, digit),
        hour,
        minute,
    }
}

fn element(row: usize, column: usize, value: u32) -> Element<Amount> {
    Element {
        row,
        column,
        value: Amount { value },
    }
}

// Performs the steps, and prints after each what it was answered and what the sheet holds then.
fn perform(rt: &HostRuntime, sheet: &mut Sheet, steps: &[(&str, Step)]) -> io::Result<()> {
    for (said, step) in steps {
        match sheet.replay(*step) {
            Ok(()) => println!(rt; "{said}: done")?,
            Err(fault) => println!(rt; "{said}: refused, {}", fault.number())?,
        }
        print!(rt; "{sheet}")?;
    }
    Ok(())
}

// Readings come in, in any order, until no place is left; two cells are set between.
fn fill(rt: &HostRuntime, sheet: &mut Sheet) -> io::Result<()> {
    let b2 = code(b'B', b'2');
    let c3 = code(b'C', b'3');
    let steps = [
        ("put B2", Step::PutReading(reading(b'B', b'2', 20))),
        ("put C3", Step::PutReading(reading(b'C', b'3', 30))),
        ("set B2 C3", Step::SetCell(b2, c3, Amount { value: 5 })),
        ("set C3 C3", Step::SetCell(c3, c3, Amount { value: 9 })),
        (
            "put A1, the first rank",
            Step::PutReading(reading(b'A', b'1', 10)),
        ),
        (
            "put B9, a rank between",
            Step::PutReading(reading(b'B', b'9', 29)),
        ),
        ("put B2 again", Step::PutReading(reading(b'B', b'2', 21))),
        (
            "put D4, no place",
            Step::PutReading(reading(b'D', b'4', 40)),
        ),
    ];
    perform(rt, sheet, &steps)
}

// A reading goes, and then the elements of a file that numbers the readings in its own order are stated.
fn thin(rt: &HostRuntime, sheet: &mut Sheet) -> io::Result<()> {
    let b9 = code(b'B', b'9');
    let absent = Step::SetCell(code(b'D', b'4'), code(b'A', b'1'), Amount { value: 1 });
    let order = [
        reading(b'C', b'3', 0),
        reading(b'A', b'1', 0),
        reading(b'B', b'2', 0),
    ];
    let upper = [
        element(1, 2, 7),
        element(2, 2, 4),
        element(2, 3, 8),
        element(1, 3, 0),
        element(3, 2, 6),
        element(3, 3, 3),
    ];
    let steps = [
        ("drop B9", Step::DropReading(b9)),
        ("drop B9 again", Step::DropReading(b9)),
        ("set D4 A1, absent", absent),
        (
            "states of an upper triangle by C3 A1 B2, up to a fault",
            Step::State(Side::Upper, order, upper),
        ),
    ];
    perform(rt, sheet, &steps)
}

// The table of the other kind of record.
fn call_on(rt: &HostRuntime, sheet: &mut Sheet) -> io::Result<()> {
    let early = visit(b'B', b'2', 9, 30);
    let steps = [
        ("visit B2", Step::PutVisit(early)),
        ("visit B2 later", Step::PutVisit(visit(b'B', b'2', 11, 5))),
        ("visit A1", Step::PutVisit(visit(b'A', b'1', 23, 0))),
        ("drop visit B2", Step::DropVisit(early)),
    ];
    perform(rt, sheet, &steps)
}

fn main(rt: HostRuntime) -> io::Result<()> {
    let mut sheet = Sheet::blank();
    fill(&rt, &mut sheet)?;
    thin(&rt, &mut sheet)?;
    call_on(&rt, &mut sheet)
}
