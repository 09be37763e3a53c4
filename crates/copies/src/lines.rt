// The lines of a fair copy, added to a medium one after another. Each is a front of the 80 columns of its record.
ghost use Rattle.std.specs.Prelude.{◌≡◌, ℕ, ◌<◌, ◌≤◌, List, [], ◌∷◌, length, take};
ghost use Rattle.copies.specs.Appends.{Appends};
ghost use Rattle.copies.specs.Bodies.{lines_from, cells_from, next_place, body_count, body_lines};
ghost use Rattle.copies.specs.Copy.{block, cell_line, header_of, matrix_title};
ghost use Rattle.records.specs.Copies.{site_text, span_text, parameter_text};

use crate::letters::contents_of;
use codes::letters::MatrixKind;
use decimals::number::Number;
use headings::elements::write_matrix_line;
use headings::headers::{Head, write_header};
use media::runs::append_line;
use media::{Full, Medium, Source};
use records::parameters::{Parameter, write_parameter};
use records::sites::{Site, write_site};
use records::spans::{Span, write_span};
use triangle::cell::Cell;

// A record that has a line of its own.
trait Lined {
    // the 80 columns of the record with that index
    ghost columns: { ℕ → Self → List ℕ };

    // how many of them its line has
    ghost wide: { ℕ };

    fn write(&self, index: u32) -> [u8; 80]
        ensures { result ≡ columns index self.now };

    fn width() -> usize
        ensures value { result ≡ wide }
        ensures within { result ≤ 80 };
}

impl Lined for Site {
    ghost columns = { λ _ x. site_text x };

    ghost wide = { 75 };

    fn write(&self, _index: u32) -> [u8; 80] {
        write_site(self)
    }

    fn width() -> usize {
        75
    }
}

impl Lined for Span {
    ghost columns = { λ _ x. span_text x };

    ghost wide = { 54 };

    fn write(&self, _index: u32) -> [u8; 80] {
        write_span(self)
    }

    fn width() -> usize {
        54
    }
}

impl Lined for Parameter {
    ghost columns = { parameter_text };

    ghost wide = { 80 };

    fn write(&self, index: u32) -> [u8; 80] {
        write_parameter(index, self)
    }

    fn width() -> usize {
        80
    }
}

// The lines of records, with indices from 1 on.
fn append_records<M: Medium, R: Lined>(m: &mut M, records: &[R]) -> Result<(), Full>
    requires { length records.now ≤ 1000000000 }
    ensures { Appends (M.Source.content m.old) (M.Medium.room m.old) result (M.Source.content m.new) (M.Medium.room m.new) (lines_from (λ i x. take R.Lined.wide (R.Lined.columns i x)) 1 records.now) }
{
    let mut index: u32 = 1;
    for x in records {
        let columns = x.write(index);
        append_line(m, &columns[0..R::width()])?;
        index += 1;
    }
    Ok(())
}

// A place in the lower triangle, counted from 0.
#[derive(Clone, Copy)]
struct Place {
    row: u32,
    column: u32,
}

impl Place {
    // The next place in the row, or the first of the next row.
    fn next(self) -> Place
        requires { (self.row < 1000000000) × (self.column < 1000000000) }
        ensures { result ≡ next_place self }
    {
        if self.column < self.row {
            Place {
                row: self.row,
                column: self.column + 1,
            }
        } else {
            Place {
                row: self.row + 1,
                column: 0,
            }
        }
    }
}

// The line of a cell, unless it is zero.
fn append_cell<M: Medium>(m: &mut M, place: Place, value: &Number) -> Result<(), Full>
    requires { (place.row < 1000000000) × (place.column < 1000000000) }
    ensures { Appends (M.Source.content m.old) (M.Medium.room m.old) result (M.Source.content m.new) (M.Medium.room m.new) (cell_line take place.row place.column value.now) }
{
    if value.is_zero() {
        return Ok(());
    }
    let columns = write_matrix_line(place.row + 1, place.column + 1, value);
    append_line(m, &columns[0..34])
}

// The lines of a lower triangle, given row after row.
fn append_cells<M: Medium>(m: &mut M, cells: &[Number]) -> Result<(), Full>
    requires { length cells.now ≤ 1000000000 }
    ensures { Appends (M.Source.content m.old) (M.Medium.room m.old) result (M.Source.content m.new) (M.Medium.room m.new) (cells_from (record { row = 0; column = 0 }) cells.now) }
{
    let mut place = Place { row: 0, column: 0 };
    for value in cells {
        append_cell(m, place, value)?;
        place = place.next();
    }
    Ok(())
}

// What stands between the title and the end of a block.
#[derive(Clone, Copy)]
pub(crate) enum Body<'a> {
    Sites(&'a [Site]),
    Spans(&'a [Span]),
    Parameters(&'a [Parameter]),
    Cells(&'a [Number]),
}

fn append_body<M: Medium>(m: &mut M, body: Body) -> Result<(), Full>
    requires { body_count body ≤ 1000000000 }
    ensures { Appends (M.Source.content m.old) (M.Medium.room m.old) result (M.Source.content m.new) (M.Medium.room m.new) (body_lines body.entry) }
{
    match body {
        Body::Sites(sites) => append_records(m, sites),
        Body::Spans(spans) => append_records(m, spans),
        Body::Parameters(parameters) => append_records(m, parameters),
        Body::Cells(cells) => append_cells(m, cells),
    }
}

// A line of a sign and a title.
fn append_signed<M: Medium>(m: &mut M, sign: u8, title: &[u8]) -> Result<(), Full>
    ensures { Appends (M.Source.content m.old) (M.Medium.room m.old) result (M.Source.content m.new) (M.Medium.room m.new) ((sign ∷ title.now) ∷ []) }
{
    m.append(sign)?;
    append_line(m, title)
}

// A block: its title, its body, its end.
pub(crate) fn append_block<M: Medium>(m: &mut M, title: &[u8], body: Body) -> Result<(), Full>
    requires { body_count body ≤ 1000000000 }
    ensures { Appends (M.Source.content m.old) (M.Medium.room m.old) result (M.Source.content m.new) (M.Medium.room m.new) (block title.now (body_lines body.entry)) }
{
    append_signed(m, b'+', title)?;
    append_body(m, body)?;
    append_signed(m, b'-', title)
}

// The header line: as wide as its letters make it.
pub(crate) fn append_header<M: Medium>(
    m: &mut M,
    head: &Head,
    estimates: &[Parameter],
) -> Result<(), Full>
    requires { length estimates.now ≤ 1000000000 }
    ensures { Appends (M.Source.content m.old) (M.Medium.room m.old) result (M.Source.content m.new) (M.Medium.room m.new) (header_of take head.now estimates.now ∷ []) }
{
    let letters = contents_of(estimates);
    let columns = write_header(&head.header, estimates.len() as u32, &letters.places);
    append_line(m, &columns[0..67 + 2 * letters.count])
}

// The title of a block of cells.
pub(crate) fn matrix_title(kind: MatrixKind) -> [u8; 31]
    ensures { result ≡ matrix_title kind }
{
    let mut title = *b"SOLUTION/MATRIX_ESTIMATE L     ";
    title[27..31].copy_from_slice(&kind.word());
    title
}
