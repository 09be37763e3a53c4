// The lines of a matrix: up to three elements of a row, from a column on.
ghost use Rattle.std.specs.Prelude.{◌≡◌, length};
ghost use Rattle.headings.specs.Elements.{read_place, read_element, read_elements, read_matrix_line, place_text, single_text, matrix_text};

use codes::texts::check_blank;
use decimals::number::Number;
use decimals::reads::read_number;
use decimals::scan::is_blank;
use decimals::writes::write_number;
use fields::counts::{read_count, write_index};
use refusals::Fault;

// What a matrix line says. A second or third element that is blank is none.
#[derive(Clone, Copy)]
pub struct MatrixLine {
    pub row: u32,
    pub column: u32,
    pub first: Number,
    pub second: Option<Number>,
    pub third: Option<Number>,
}

// A row, a blank column and a column: eleven columns.
fn read_place(columns: &[u8]) -> Result<(u32, u32), Fault>
    requires { length columns.now ≡ 11 }
    ensures { result ≡ read_place columns.now }
{
    let row = read_count(&columns[0..5])?;
    check_blank(&columns[5..6])?;
    let column = read_count(&columns[6..11])?;
    Ok((row, column))
}

// An element, or none where its columns are blank.
fn read_element(columns: &[u8]) -> Result<Option<Number>, Fault>
    ensures { result ≡ read_element columns.now }
{
    if is_blank(columns) {
        return Ok(None);
    }
    read_number(columns).map(Some)
}

// Three elements, each with a blank column before it, and blanks to the end: 68 columns.
fn read_elements(columns: &[u8]) -> Result<(Number, Option<Number>, Option<Number>), Fault>
    requires { length columns.now ≡ 68 }
    ensures { result ≡ read_elements columns.now }
{
    check_blank(&columns[0..1])?;
    let first = read_number(&columns[1..22])?;
    check_blank(&columns[22..23])?;
    let second = read_element(&columns[23..44])?;
    check_blank(&columns[44..45])?;
    let third = read_element(&columns[45..66])?;
    check_blank(&columns[66..68])?;
    Ok((first, second, third))
}

// The matrix line of a data line's 80 columns. The first column, which says that it is one, is not looked at.
pub fn read_matrix_line(line: &[u8; 80]) -> Result<MatrixLine, Fault>
    ensures { result ≡ read_matrix_line line.now }
{
    let (row, column) = read_place(&line[1..12])?;
    let (first, second, third) = read_elements(&line[12..80])?;
    Ok(MatrixLine {
        row,
        column,
        first,
        second,
        third,
    })
}

fn write_place(row: u32, column: u32) -> [u8; 11]
    ensures { result ≡ place_text row column }
{
    let mut out = [b' '; 11];
    out[6..11].copy_from_slice(&write_index(column));
    out[0..5].copy_from_slice(&write_index(row));
    out
}

fn write_single(value: &Number) -> [u8; 68]
    ensures { result ≡ single_text value.now }
{
    let mut out = [b' '; 68];
    out[1..22].copy_from_slice(&write_number(value));
    out
}

// The 80 columns of a matrix line in a fair copy, which has one cell.
pub fn write_matrix_line(row: u32, column: u32, value: &Number) -> [u8; 80]
    ensures { result ≡ matrix_text row column value.now }
{
    let mut out = [b' '; 80];
    out[12..80].copy_from_slice(&write_single(value));
    out[1..12].copy_from_slice(&write_place(row, column));
    out
}
