// Indices, counts, rows and columns: read and written.
ghost use Rattle.std.specs.Prelude.{◌≡◌};
ghost use Rattle.fields.specs.Count.{read_count, index_text, count_text};

use decimals::numerals::read_numeral;
use decimals::scan::skip_blanks;
use decimals::writes::{put_digits, put_right};
use refusals::Fault;

// Blanks, then digits up to the end.
pub fn read_count(text: &[u8]) -> Result<u32, Fault>
    ensures { result ≡ read_count text.now }
{
    read_numeral(skip_blanks(text)).ok_or(Fault::WrongNumber)
}

// An index, a row or a column, on the right of five columns.
pub fn write_index(n: u32) -> [u8; 5]
    ensures { result ≡ index_text n }
{
    let mut out = [b' '; 5];
    put_right(&mut out, false, u64::from(n));
    out
}

// The header's count, in five digits.
pub fn write_count(n: u32) -> [u8; 5]
    ensures { result ≡ count_text n }
{
    let mut out = [b'0'; 5];
    put_digits(&mut out, u64::from(n));
    out
}
