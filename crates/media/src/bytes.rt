// Bytes that are only read.
ghost use Rattle.std.specs.Prelude.{◌≡◌};

use crate::Source;

#[derive(Drop)]
pub struct Bytes<'a> {
    bytes: &'a [u8],
}

impl<'a> Bytes<'a> {
    pub fn new(bytes: &'a [u8]) -> Bytes<'a>
        ensures { result.bytes.now ≡ bytes.now }
    {
        Bytes { bytes }
    }
}

impl<'a> Source for Bytes<'a> {
    ghost content = { λ s. s.bytes.now };

    fn length(&self) -> usize {
        self.bytes.len()
    }

    fn byte(&self, place: usize) -> Option<u8> {
        self.bytes.get(place).copied()
    }
}
