// The data lines of a block, one by one.
ghost use Rattle.std.specs.Prelude.{◌≡◌, ◌-◌, ◌≤◌, length, drop};
ghost use Rattle.frame.specs.DataLines.{Yields, walked, walked_from};
ghost use Rattle.frame.specs.Lines.{lines};

use crate::line::{Line, LineKind, fetch};
use crate::place::{LineAt, Place};
use crate::walk::LONGEST;
use media::Source;

// A data line, and its number in the file.
#[derive(Clone, Copy)]
pub struct DataLine {
    pub number: u32,
    pub line: Line,
}

// The next data line at or after the place, which then stands after it; comments are passed over. None, at the place of the
// line in the way, where another kind of line or none comes first.
fn next_from<S: Source>(source: &S, place: &mut Place) -> Option<DataLine>
    requires small { length (S.content source.now) ≤ 100000000 }
    requires number { place.old.line - 1 ≤ place.old.byte }
    ensures found { result ≡ (walked place.old (lines (drop place.old.byte (S.content source.now)))).found }
    ensures place { place.new ≡ (walked place.old (lines (drop place.old.byte (S.content source.now)))).place }
{
    while let Some(line) = fetch(source, place.byte).ok()? {
        let at = LineAt {
            place: *place,
            line,
        };
        match line.kind()? {
            LineKind::Data => {
                *place = at.next();
                return Some(DataLine {
                    number: at.place.line,
                    line,
                });
            }
            LineKind::Comment => *place = at.next(),
            _ => return None,
        }
    }
    None
}

// The next data line at or after a place that `check` has kept, or that an earlier call has left. At any other place of a
// source, or where the source is too long, there is none, and the place stays.
pub fn next_data<S: Source>(source: &S, place: &mut Place) -> Option<DataLine>
    ensures found { result ≡ (walked_from (S.content source.now) place.old).found }
    ensures place { place.new ≡ (walked_from (S.content source.now) place.old).place }
    ensures yields { Yields (S.content source.now) place.old result place.new }
{
    if source.length() > LONGEST || place.line.saturating_sub(1) as usize > place.byte {
        return None;
    }
    next_from(source, place)
}
