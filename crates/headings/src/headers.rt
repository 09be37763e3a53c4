// The head of a solution: what its header line says, and what its matrix holds.
ghost use Rattle.std.specs.Prelude.{◌≡◌, length};
ghost use Rattle.headings.specs.Headers.{read_agencies, read_period, check_letter, check_letters, read_header_by, read_header, read_edited_header};
ghost use Rattle.codes.specs.Codes.{place_letter};
ghost use Rattle.headings.specs.Copies.{agencies_text, period_text, letters_text, header_text};

use codes::letters::{Constraint, Contents, MatrixKind, Technique, read_code, read_contents};
use codes::texts::{check_blank, read_text};
use fields::counts::{read_count, write_count};
use fields::epochs::{Moment, read_moment, write_moment};
use refusals::Fault;

// A header line's fields, but for its count and its letters, which follow from the estimates.
#[derive(Clone, Copy)]
pub struct Header {
    pub file_agency: [u8; 3],
    pub created: Moment,
    pub data_agency: [u8; 3],
    pub start: Moment,
    pub end: Moment,
    pub technique: Technique,
    pub constraint: Constraint,
}

#[derive(Clone, Copy)]
pub struct Head {
    pub header: Header,
    pub kind: MatrixKind,
}

// The agency of the file, its creation and the agency of the data, each with a blank column before it.
fn read_agencies(columns: &[u8]) -> Result<([u8; 3], Moment, [u8; 3]), Fault>
    requires { length columns.now ≡ 21 }
    ensures { result ≡ read_agencies columns.now }
{
    check_blank(&columns[0..1])?;
    let file_agency = read_text(&columns[1..4])?;
    check_blank(&columns[4..5])?;
    let created = read_moment(&columns[5..17])?;
    check_blank(&columns[17..18])?;
    let data_agency = read_text(&columns[18..21])?;
    Ok((file_agency, created, data_agency))
}

// Start and end, each with a blank column before it.
fn read_period(columns: &[u8]) -> Result<(Moment, Moment), Fault>
    requires { length columns.now ≡ 26 }
    ensures { result ≡ read_period columns.now }
{
    check_blank(&columns[0..1])?;
    let start = read_moment(&columns[1..13])?;
    check_blank(&columns[13..14])?;
    let end = read_moment(&columns[14..26])?;
    Ok((start, end))
}

// A blank column and the place of a letter.
fn check_letter(columns: &[u8]) -> Result<(), Fault>
    requires { length columns.now ≡ 2 }
    ensures { result ≡ check_letter columns.now }
{
    check_blank(&columns[0..1])?;
    read_contents(&columns[1..2])?;
    Ok(())
}

// The six places of the contents letters, which are held to their rule and not kept, and a blank column after them.
#[tactic(auto, using(crate::proofs::Letters::letters_by_places, crate::proofs::Letters::places_more, crate::proofs::Letters::places_none))]
fn check_letters(columns: &[u8]) -> Result<(), Fault>
    requires { length columns.now ≡ 13 }
    ensures { result ≡ check_letters columns.now }
{
    for place in columns[..12].chunks_exact(2) {
        check_letter(place)?;
    }
    check_blank(&columns[12..13])
}

// A header line's fields, and its count as the caller reads it: a fault there comes in the order of the columns.
fn read_header_by<C: Copy>(count: Result<C, Fault>, line: &[u8; 80]) -> Result<(Header, C), Fault>
    ensures { result ≡ read_header_by count line.now }
{
    let (file_agency, created, data_agency) = read_agencies(&line[10..31])?;
    let (start, end) = read_period(&line[31..57])?;
    check_blank(&line[57..58])?;
    let technique = read_code(&line[58..59])?;
    check_blank(&line[59..60])?;
    let count = count?;
    check_blank(&line[65..66])?;
    let constraint = read_code(&line[66..67])?;
    check_letters(&line[67..80])?;
    let header = Header {
        file_agency,
        created,
        data_agency,
        start,
        end,
        technique,
        constraint,
    };
    Ok((header, count))
}

// The header and the count of a header line's 80 columns. The first ten, which say that it is one, are not looked at.
pub fn read_header(line: &[u8; 80]) -> Result<(Header, u32), Fault>
    ensures { result ≡ read_header line.now }
{
    read_header_by(read_count(&line[60..65]), line)
}

// The header alone, whatever stands in the columns of the count.
pub fn read_edited_header(line: &[u8; 80]) -> Result<Header, Fault>
    ensures { result ≡ read_edited_header line.now }
{
    let (header, ()) = read_header_by(Ok(()), line)?;
    Ok(header)
}

fn write_agencies(h: &Header) -> [u8; 21]
    ensures { result ≡ agencies_text h.now }
{
    let mut out = [b' '; 21];
    out[18..21].copy_from_slice(&h.data_agency);
    out[5..17].copy_from_slice(&write_moment(&h.created));
    out[1..4].copy_from_slice(&h.file_agency);
    out
}

fn write_period(h: &Header) -> [u8; 26]
    ensures { result ≡ period_text h.now }
{
    let mut out = [b' '; 26];
    out[14..26].copy_from_slice(&write_moment(&h.end));
    out[1..13].copy_from_slice(&write_moment(&h.start));
    out
}

fn place_letter(place: Option<Contents>) -> u8
    ensures { result ≡ place_letter place }
{
    place.map_or(b' ', Contents::letter)
}

#[tactic(auto, using(crate::proofs::Letters::letters_more))]
fn write_letters(letters: &[Option<Contents>; 6]) -> [u8; 13]
    ensures { result ≡ letters_text letters.now }
{
    let mut out = [b' '; 13];
    for (i, letter) in letters.iter().enumerate() {
        out[2 * i + 1] = place_letter(*letter);
    }
    out
}

// The 80 columns of a fair copy's header line, with the count of the estimates and the letters in their six places.
pub fn write_header(h: &Header, count: u32, letters: &[Option<Contents>; 6]) -> [u8; 80]
    ensures { result ≡ header_text h.now count letters.now }
{
    let mut out = [b' '; 80];
    out[67..80].copy_from_slice(&write_letters(letters));
    out[66] = h.constraint.digit();
    out[60..65].copy_from_slice(&write_count(count));
    out[58] = h.technique.letter();
    out[31..57].copy_from_slice(&write_period(h));
    out[10..31].copy_from_slice(&write_agencies(h));
    out[0..10].copy_from_slice(b"%=SNX 2.02");
    out
}
