// What an edit is handed as bytes.
ghost use Rattle.model.specs.Handed.{fit_line, data_line, header_line, cell_number};
ghost use Rattle.std.specs.Prelude.{◌≡◌, ◌≤◌, length};
ghost use Rattle.frame.specs.Lines.{padded};

use codes::texts::same_text;
use decimals::number::Number;
use decimals::reads::read_number;
use frame::line::{Line, LineKind, all_printable};
use refusals::Fault;

// The 80 columns of a line, blank past its end.
fn columns_of(bytes: &[u8]) -> [u8; 80]
    requires { length bytes.now ≤ 80 }
    ensures { result ≡ padded 32 80 bytes.now }
{
    let mut columns = [b' '; 80];
    columns[0..bytes.len()].copy_from_slice(bytes);
    columns
}

// A line of at most 80 bytes, all of them printable.
fn fit_line(bytes: &[u8]) -> Result<Line, Fault>
    ensures { result ≡ fit_line bytes.now }
{
    if bytes.len() > 80 || !all_printable(bytes) {
        return Err(Fault::UnfitLine);
    }
    Ok(Line {
        columns: columns_of(bytes),
        len: bytes.len(),
    })
}

// The 80 columns of a data line.
pub(crate) fn data_line(bytes: &[u8]) -> Result<[u8; 80], Fault>
    ensures { result ≡ data_line bytes.now }
{
    let line = fit_line(bytes)?;
    match line.kind() {
        Some(LineKind::Data) => Ok(line.columns),
        _ => Err(Fault::UnknownLineKind),
    }
}

// The 80 columns of a header line.
pub(crate) fn header_line(bytes: &[u8]) -> Result<[u8; 80], Fault>
    ensures { result ≡ header_line bytes.now }
{
    let line = fit_line(bytes)?;
    if line.kind().is_none() {
        return Err(Fault::UnknownLineKind);
    }
    if !same_text(&line.columns[0..10], b"%=SNX 2.02") {
        return Err(Fault::NoHeaderLine);
    }
    Ok(line.columns)
}

// The number that a cell is set to.
pub(crate) fn cell_number(text: &[u8]) -> Result<Number, Fault>
    ensures { result ≡ cell_number text.now }
{
    if text.len() > 21 {
        return Err(Fault::WrongNumber);
    }
    read_number(text)
}
