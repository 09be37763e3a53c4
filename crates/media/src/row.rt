// A row of bytes with a fill count: the first bytes of the row, as many as the count says, are its content.
ghost use Rattle.std.specs.Prelude.{◌≡◌, ◌+◌, ◌<◌, min, [], ◌∷◌, ◌++◌, length, take};
ghost use Rattle.media.specs.Rows.{row_room, row_content};

use crate::{Full, Medium, Source};

// A row has no more bytes than these, however long it is.
const MOST_BYTES: usize = 100_000_000;

// The bytes are the lender's, and there is no heap: so a slice with a count, and no Vec.
#[derive(Drop)]
pub struct Row<'a> {
    bytes: &'a mut [u8],
    fill: usize,
}

impl<'a> Row<'a> {
    // An empty row.
    pub fn new(bytes: &'a mut [u8]) -> Row<'a>
        ensures content { row_content result.bytes.now result.fill ≡ [] }
        ensures room { row_room result.bytes.now ≡ row_room bytes.old }
        ensures handed { result.bytes.now ≡ bytes.old }
        ensures lent { result.bytes.ghost_name ≡ bytes.entry.ghost_name }
    {
        Row { bytes, fill: 0 }
    }

    // A row that holds its first `fill` bytes, or as many as it has room for.
    pub fn filled(bytes: &'a mut [u8], fill: usize) -> Row<'a>
        ensures content { row_content result.bytes.now result.fill ≡ row_content bytes.old fill }
        ensures room { row_room result.bytes.now ≡ row_room bytes.old }
        ensures handed { result.bytes.now ≡ bytes.old }
        ensures lent { result.bytes.ghost_name ≡ bytes.entry.ghost_name }
    {
        Row { bytes, fill }
    }
}

impl<'a> Source for Row<'a> {
    ghost content = { λ s. row_content s.bytes.now s.fill };

    fn length(&self) -> usize
        ensures filled { result ≡ min self.now.fill (row_room self.now.bytes.now) }
        ensures value { result ≡ length (row_content self.now.bytes.now self.now.fill) }
    {
        self.fill.min(self.capacity())
    }

    fn byte(&self, place: usize) -> Option<u8> {
        self.bytes[..self.length()].get(place).copied()
    }
}

impl<'a> Medium for Row<'a> {
    ghost room = { λ s. row_room s.bytes.now };

    fn capacity(&self) -> usize {
        self.bytes.len().min(MOST_BYTES)
    }

    fn append(&mut self, b: u8) -> Result<(), Full> {
        let n = self.length();
        if n < self.capacity() {
            self.bytes[n] = b;
            self.fill = n + 1;
            Ok(())
        } else {
            Err(Full)
        }
    }

    fn empty(&mut self) {
        self.fill = 0;
    }
}
