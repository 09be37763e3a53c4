// Where a reader stands in a source.
ghost use Rattle.std.specs.Prelude.{◌≡◌, ◌+◌, ◌≤◌, drop};
ghost use Rattle.frame.specs.Lines.{passed, is_nil};

use crate::line::Line;
use media::Source;

// The byte at which a line begins, and that line's number, counted from 1.
#[derive(Clone, Copy)]
pub struct Place {
    pub byte: usize,
    pub line: u32,
}

// A line of a source that is not too long, and the place at which it was read.
#[derive(Clone, Copy)]
pub(crate) struct LineAt {
    pub(crate) place: Place,
    pub(crate) line: Line,
    ghost within: { (place.byte + line.len ≤ 100000000) × (place.line ≤ place.byte + 1) },
}

impl LineAt {
    // The place of the line after it.
    pub(crate) fn next(&self) -> Place
        ensures { result ≡ passed self.now.place self.now.line.len }
    {
        Place {
            byte: self.place.byte + self.line.len + 1,
            line: self.place.line + 1,
        }
    }
}

// A look ahead: it may move the place, which is put back when it is dropped.
pub(crate) struct LookAhead<'a> {
    place: &'a mut Place,
    byte: usize,
    line: u32,
}

impl Drop for LookAhead<'_> {
    fn drop(self)
        ensures { self.exit.0.now ≡ record { byte = self.entry.byte; line = self.entry.line } }
    {
        self.place.byte = self.byte;
        self.place.line = self.line;
        let LookAhead {
            place: _,
            byte: _,
            line: _,
        } = self;
    }
}

// Whether the line is the last of the source: the place is moved past it for the look, and put back.
pub(crate) fn is_last<S: Source>(source: &S, place: &mut Place, at: &LineAt) -> bool
    ensures back { place.new ≡ place.old }
    ensures last { result ≡ is_nil (drop (at.now.place.byte + at.now.line.len + 1) (S.content source.now)) }
{
    let Place { byte, line } = *place;
    let ahead = LookAhead { place, byte, line };
    *ahead.place = at.next();
    source.byte(ahead.place.byte).is_none()
}
