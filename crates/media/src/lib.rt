// Where the register reads bytes from and writes them to: the traits of sources and media, three that implement them, and
// writing that goes for every medium.
#![tactic(auto)]

pub mod blocks;
pub mod bytes;
pub mod row;
pub mod runs;

ghost use Rattle.std.specs.Prelude.{◌≡◌, ℕ, ◌≤◌, List, [], ◌∷◌, ◌++◌, length, is_ok, if◌then◌else◌, nat_lt};
ghost use Rattle.media.specs.Media.{byte_at, fault_of};

use refusals::Fault;

// What bytes are read from: its content is a list of bytes.
pub trait Source {
    ghost content: { Self → List ℕ };

    fn length(&self) -> usize
        ensures { result ≡ length (content self.now) };

    // The byte at a place, counted from 0, or none at or past the length.
    fn byte(&self, place: usize) -> Option<u8>
        ensures { result ≡ byte_at (content self.now) place };
}

// Why an append is refused: there is no space left.
#[derive(Clone, Copy, PartialEq, Eq, Debug)]
pub struct Full;

// The fault that a user is told of.
impl From<Full> for Fault {
    ghost from_gives = { λ e r. r ≡ fault_of e };

    fn from(_full: Full) -> Fault {
        Fault::MediumTooSmall
    }
}

// A source that can be written: bytes are added at the end of its content, as long as its room lasts.
pub trait Medium: Source {
    // how many bytes the content can have at most: it never changes
    ghost room: { Self → ℕ };

    fn capacity(&self) -> usize
        ensures value { result ≡ room self.now }
        ensures holds { length (Self.Source.content self.now) ≤ result };

    // One byte more, unless the medium is full.
    fn append(&mut self, b: u8) -> Result<(), Full>
        ensures granted { is_ok result ≡ nat_lt (length (Self.Source.content self.old)) (room self.old) }
        ensures after { Self.Source.content self.new ≡ (if is_ok result then Self.Source.content self.old ++ b ∷ [] else Self.Source.content self.old) }
        ensures kept { room self.new ≡ room self.old };

    // No bytes at all.
    fn empty(&mut self)
        ensures after { Self.Source.content self.new ≡ [] }
        ensures kept { room self.new ≡ room self.old };
}
