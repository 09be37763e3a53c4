// Blocks of 512 bytes: two for a count, the high byte first, and 510 for payload. The counted bytes of the leading whole blocks
// are the content, up to and with the first block that is not full.
ghost use Rattle.std.specs.Prelude.{◌≡◌, ◌+◌, ◌-◌, ◌*◌, ◌/◌, ◌%◌, ◌<◌, ◌≤◌, min, true, [], ◌∷◌, ◌++◌, length, take, drop, is_ok, if◌then◌else◌, nat_lt, slice_index, slice_set};
ghost use Rattle.media.specs.Blocks.{count, zeros, whole, held, blocks, block_content, block_room, ReadsBack, RestUnread};

use crate::{Full, Medium, Source};

// The bytes of a block, and those of its payload.
const BLOCK: usize = 512;

const PAYLOAD: usize = 510;

// The blocks past these are not used.
const MOST_BLOCKS: usize = 196_078;

// The raw bytes, which are the lender's, and how many bytes their blocks hold.
#[derive(Drop)]
pub struct Blocks<'a> {
    raw: &'a mut [u8],
    len: usize,
    ghost ok: { len ≡ length (block_content raw.now) },
}

// Writes the count of the block that rest begins with.
fn write_count(rest: &mut [u8], k: usize)
    requires { (2 ≤ length rest.old) × (k < 65536) }
    ensures { rest.new ≡ slice_set (slice_set rest.old 0 (k / 256)) 1 (k % 256) }
{
    rest[..2].copy_from_slice(&(k as u16).to_be_bytes());
}

// Adds b as byte o of the first of the m blocks of rest, whose payload from there on is zero. The block after it gets the count 0:
// what stood there before may not join the content when the first block becomes full.
fn stamp(rest: &mut [u8], m: usize, o: usize, b: u8)
    requires room { (512 * m ≤ length rest.old) × ((1 ≤ m) × (o < 510)) }
    requires clear { zeros (drop (2 + o) (take 512 rest.old)) ≡ true }
    ensures { held m rest.new ≡ take o (drop 2 (take 512 rest.old)) ++ b ∷ [] }
{
    rest[2 + o] = b;
    write_count(rest, o + 1);
    if m > 1 {
        write_count(&mut rest[BLOCK..], 0);
    }
}

// Zeroes the payload of the block that rest begins with.
fn blank(rest: &mut [u8])
    requires { 512 ≤ length rest.old }
    ensures { zeros (drop 2 (take 512 rest.new)) ≡ true }
{
    rest[2..BLOCK].fill(0);
}

// Adds b to the o bytes that the m blocks of rest hold, where these are fewer than a block's payload.
fn add(rest: &mut [u8], m: usize, o: usize, b: u8)
    requires room { (512 * m ≤ length rest.old) × ((1 ≤ m) × (o < 510)) }
    requires holds { o ≡ length (held m rest.old) }
    ensures { held m rest.new ≡ held m rest.old ++ b ∷ [] }
{
    if o == 0 {
        blank(rest);
    }
    stamp(rest, m, o, b);
}

// Whether there is no byte but zero.
fn is_zero(bytes: &[u8]) -> bool
    ensures { result ≡ zeros bytes.now }
{
    bytes.iter().all(|b| *b == 0)
}

// The count of a block, or 0 where it is not whole.
fn whole_count(block: &[u8]) -> usize
    requires { length block.now ≡ 512 }
    ensures value { result ≡ (if whole block.now then count block.now else 0) }
    ensures few { result ≤ 510 }
{
    let k = usize::from(u16::from_be_bytes([block[0], block[1]]));
    if k <= PAYLOAD && is_zero(&block[2 + k..]) {
        k
    } else {
        0
    }
}

// How many blocks of raw are used.
fn used(raw: &[u8]) -> usize
    ensures { result ≡ blocks raw.now }
{
    (raw.len() / BLOCK).min(MOST_BLOCKS)
}

// How many bytes the blocks of raw hold.
fn measured(raw: &[u8]) -> usize
    ensures { result ≡ length (block_content raw.now) }
{
    let mut len = 0;
    for block in raw.chunks_exact(BLOCK).take(used(raw)) {
        let k = whole_count(block);
        len += k;
        if k < PAYLOAD {
            break;
        }
    }
    len
}

// A byte that the blocks of raw hold.
fn byte_of(raw: &[u8], place: usize) -> u8
    requires { place < length (block_content raw.now) }
    ensures { result ≡ slice_index (block_content raw.now) place }
{
    raw[BLOCK * (place / PAYLOAD) + (2 + place % PAYLOAD)]
}

// One byte more than the len bytes that the blocks of raw hold, or a refusal where they are full.
// A function over the bytes alone: of a part that is lent of a field, nothing is known afterwards.
fn append_raw(raw: &mut [u8], len: usize, b: u8) -> Result<(), Full>
    requires { len ≡ length (block_content raw.old) }
    ensures granted { is_ok result ≡ nat_lt (length (block_content raw.old)) (block_room raw.old) }
    ensures after { block_content raw.new ≡ (if is_ok result then block_content raw.old ++ b ∷ [] else block_content raw.old) }
    ensures kept { block_room raw.new ≡ block_room raw.old }
{
    let n = used(raw);
    if len >= PAYLOAD * n {
        return Err(Full);
    }
    let f = len / PAYLOAD;
    add(&mut raw[BLOCK * f..], n - f, len % PAYLOAD, b);
    Ok(())
}

// Gives the first block the count 0.
fn clear(raw: &mut [u8])
    ensures after { block_content raw.new ≡ [] }
    ensures kept { block_room raw.new ≡ block_room raw.old }
{
    if raw.len() >= BLOCK {
        write_count(raw, 0);
    }
}

// Any bytes that fit are read back from the blocks that they are laid out in, whatever stands behind the last of them that is not full.
pub fn layout_law()
    ensures back { ReadsBack }
    ensures rest { RestUnread }
{}

impl<'a> Blocks<'a> {
    // Takes over what raw holds, whatever its bytes are. Making them goes through the blocks once; reading, append and empty never do.
    pub fn new(raw: &'a mut [u8]) -> Blocks<'a>
        ensures content { block_content result.raw.now ≡ block_content raw.old }
        ensures room { block_room result.raw.now ≡ block_room raw.old }
        ensures handed { result.raw.now ≡ raw.old }
        ensures lent { result.raw.ghost_name ≡ raw.entry.ghost_name }
    {
        let len = measured(raw);
        Blocks { raw, len }
    }

    // Hands the raw bytes back: they hold what the blocks held.
    pub fn into_raw(self) -> &'a mut [u8]
        ensures { result.now ≡ self.entry.raw.now }
    {
        self.raw
    }

    // Closes the blocks and opens their raw bytes again: all that they held is found there.
    pub fn reopened(self) -> Blocks<'a>
        ensures content { block_content result.raw.now ≡ block_content self.entry.raw.now }
        ensures room { block_room result.raw.now ≡ block_room self.entry.raw.now }
    {
        Blocks::new(self.into_raw())
    }
}

impl<'a> Source for Blocks<'a> {
    ghost content = { λ s. block_content s.raw.now };

    fn length(&self) -> usize {
        self.len
    }

    fn byte(&self, place: usize) -> Option<u8> {
        (place < self.len).then(|| byte_of(self.raw, place))
    }
}

impl<'a> Medium for Blocks<'a> {
    ghost room = { λ s. block_room s.raw.now };

    fn capacity(&self) -> usize {
        PAYLOAD * used(self.raw)
    }

    fn append(&mut self, b: u8) -> Result<(), Full> {
        append_raw(self.raw, self.len, b)?;
        self.len += 1;
        Ok(())
    }

    fn empty(&mut self) {
        clear(self.raw);
        self.len = 0;
    }
}
