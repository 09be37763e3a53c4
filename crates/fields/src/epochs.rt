// Epochs, YY:DDD:SSSSS: read, written and compared.
ghost use Rattle.std.specs.Prelude.{◌≡◌, ◌<◌};
ghost use Rattle.fields.specs.Epoch.{epoch_at, read_epoch, read_moment, stamp, epoch_text, moment_text, moment_order, epoch_order};

use decimals::numerals::read_numeral;
use decimals::writes::put_digits;
use refusals::Fault;
use std::cmp::Ordering;

// A second of a day of a year, with the full year. Moments are ordered by year, day and second.
#[derive(Clone, Copy, PartialEq, Eq, PartialOrd, Ord, Debug)]
pub struct Moment {
    pub year: u16,
    pub day: u16,
    pub second: u32,
}

// An epoch: open, which is written 00:000:00000, or at a moment.
// It is no Option: an open epoch is a value that the format writes and orders, and its name says so.
#[derive(Clone, Copy, PartialEq, Eq, PartialOrd, Ord, Debug)]
pub enum Epoch {
    Open,
    At(Moment),
}

// The epoch with two digits of a year, a day and a second.
fn epoch_at(y: u32, d: u32, s: u32) -> Result<Epoch, Fault>
    requires { (y < 100) × (d < 1000) }
    ensures { result ≡ epoch_at y d s }
{
    if y == 0 && d == 0 && s == 0 {
        return Ok(Epoch::Open);
    }
    let year = if y <= 50 { 2000 + y } else { 1900 + y };
    let days = if year % 4 == 0 { 366 } else { 365 };
    if d < 1 || d > days || s > 86399 {
        return Err(Fault::WrongEpoch);
    }
    Ok(Epoch::At(Moment {
        year: year as u16,
        day: d as u16,
        second: s,
    }))
}

pub fn read_epoch(text: &[u8]) -> Result<Epoch, Fault>
    ensures { result ≡ read_epoch text.now }
{
    if text.len() != 12 || text[2] != b':' || text[6] != b':' {
        return Err(Fault::WrongEpoch);
    }
    let year = read_numeral(&text[0..2]).ok_or(Fault::WrongEpoch)?;
    let day = read_numeral(&text[3..6]).ok_or(Fault::WrongEpoch)?;
    let second = read_numeral(&text[7..12]).ok_or(Fault::WrongEpoch)?;
    epoch_at(year, day, second)
}

// An epoch that may not be open, as a header has it.
pub fn read_moment(text: &[u8]) -> Result<Moment, Fault>
    ensures { result ≡ read_moment text.now }
{
    match read_epoch(text)? {
        Epoch::Open => Err(Fault::WrongEpoch),
        Epoch::At(m) => Ok(m),
    }
}

// Two digits of the year, three of the day and five of the second.
fn stamped(y: u64, d: u64, s: u64) -> [u8; 12]
    ensures { result ≡ stamp y d s }
{
    let mut out = [b':'; 12];
    put_digits(&mut out[7..12], s);
    put_digits(&mut out[3..6], d);
    put_digits(&mut out[0..2], y);
    out
}

pub fn write_moment(m: &Moment) -> [u8; 12]
    ensures { result ≡ moment_text m.now }
{
    stamped(u64::from(m.year), u64::from(m.day), u64::from(m.second))
}

pub fn write_epoch(e: &Epoch) -> [u8; 12]
    ensures { result ≡ epoch_text e.now }
{
    match e {
        Epoch::Open => stamped(0, 0, 0),
        Epoch::At(m) => write_moment(m),
    }
}

pub fn compare_moments(a: &Moment, b: &Moment) -> Ordering
    ensures { result ≡ moment_order a.now b.now }
{
    a.cmp(b)
}

// Open comes first, then the order of time.
pub fn compare_epochs(a: &Epoch, b: &Epoch) -> Ordering
    ensures { result ≡ epoch_order a.now b.now }
{
    a.cmp(b)
}
