// The lines of a source: byte 10 ends a line, and the last may lack it.
ghost use Rattle.frame.specs.Lines.{all_printable, fetched, kind_by, kind_of};
ghost use Rattle.std.specs.Prelude.{◌≡◌, drop};

use media::Source;
use refusals::Fault;

// A line as its 80 columns, padded with blanks, and its length before that.
#[derive(Clone, Copy)]
pub struct Line {
    pub columns: [u8; 80],
    pub len: usize,
}

// The kinds of line, by their first character.
#[derive(Clone, Copy, PartialEq, Eq)]
pub enum LineKind {
    // '%': the header and the footer
    Bound,
    // '*'
    Comment,
    // '+': a block begins
    Title,
    // '-': a block ends
    End,
    // a blank
    Data,
}

// Whether each byte is printable.
pub fn all_printable(line: &[u8]) -> bool
    ensures { result ≡ all_printable line.now }
{
    for b in line {
        if *b < 32 || *b > 126 {
            return false;
        }
    }
    true
}

// The line that begins at byte `at`; none at or past the source's length. A line that is too long, or holds a byte outside 32
// to 126, is refused.
pub fn fetch<S: Source>(source: &S, at: usize) -> Result<Option<Line>, Fault>
    ensures { result ≡ fetched (drop at (S.content source.now)) }
{
    if at >= source.length() {
        return Ok(None);
    }
    let mut columns = [b' '; 80];
    // counted by hand, since a source gives its bytes by place alone
    let mut len = 0;
    while let Some(b) = source.byte(at + len) {
        if b == b'\n' {
            break;
        }
        if len == 80 {
            return Err(Fault::UnfitLine);
        }
        columns[len] = b;
        len += 1;
    }
    if all_printable(&columns[..len]) {
        Ok(Some(Line { columns, len }))
    } else {
        Err(Fault::UnfitLine)
    }
}

// The kind that a line's first character tells.
fn kind_by(first: u8) -> Option<LineKind>
    ensures { result ≡ kind_by first }
{
    match first as char {
        '%' => Some(LineKind::Bound),
        '*' => Some(LineKind::Comment),
        '+' => Some(LineKind::Title),
        '-' => Some(LineKind::End),
        ' ' => Some(LineKind::Data),
        _ => None,
    }
}

impl Line {
    // The kind of the line; none where it is empty or begins with another character.
    pub fn kind(&self) -> Option<LineKind>
        ensures { result ≡ kind_of self.now }
    {
        if self.len == 0 {
            return None;
        }
        kind_by(self.columns[0])
    }
}
