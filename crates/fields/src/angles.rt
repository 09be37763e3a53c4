// Longitudes and latitudes in tenths of a second, heights in tenths of a metre: read and written.
ghost use Rattle.std.specs.Prelude.{◌≡◌, ◌^◌, ◌<◌, true, Some, length};
ghost use Rattle.decimals.specs.Number.{signed};
ghost use Rattle.fields.specs.Angle.{angle, spaced, angle_rest, read_longitude, read_latitude, height, read_height, angle_text, height_text};

use decimals::numerals::{read_numeral, read_tenths};
use decimals::scan::{skip_blanks, take_sign};
use decimals::writes::{put_digits, put_right};
use refusals::Fault;

// The number with a minus sign before it, or none.
fn with_sign(negative: bool, n: u32) -> i32
    requires { n < 2 ^ 31 }
    ensures { result ≡ signed negative n }
{
    let z = n as i32;
    if negative { -z } else { z }
}

// Degrees, minutes and tenths of a second, of at most `most` tenths in all.
fn angle_of(most: u32, negative: bool, d: u32, m: u32, s: u32) -> Result<i32, Fault>
    requires { (most < 20000000) × ((d < 10000) × ((m < 10000) × (s < 10000))) }
    ensures { result ≡ angle most negative d m s }
{
    let all = d * 36000 + m * 600 + s;
    if m >= 60 || s >= 600 || all > most {
        return Err(Fault::NumberOutOfRange);
    }
    Ok(with_sign(negative, all))
}

// Whether an angle has its eleven columns, with blanks after the degrees and the minutes.
fn is_spaced(text: &[u8]) -> bool
    ensures value { result ≡ spaced text.now }
    ensures size { result ≡ true → length text.now ≡ 11 }
{
    text.len() == 11 && text[3] == b' ' && text[6] == b' '
}

// An angle whose sign and degrees are read, with its minutes and seconds.
fn angle_with(most: u32, negative: bool, degrees: u32, text: &[u8]) -> Result<i32, Fault>
    requires text_len { length text.now ≡ 11 }
    requires most_bound { (most < 20000000) × (degrees < 10000) }
    ensures { result ≡ angle_rest most negative (Some degrees) text.now }
{
    let minutes = read_numeral(skip_blanks(&text[4..6])).ok_or(Fault::WrongNumber)?;
    let seconds = read_tenths(skip_blanks(&text[7..11])).ok_or(Fault::WrongNumber)?;
    angle_of(most, negative, degrees, minutes, seconds)
}

// A longitude: below 360 degrees, with no sign.
#[tactic(auto, unfolding(crate::specs::Angle::read_longitude))]
pub fn read_longitude(text: &[u8]) -> Result<i32, Fault>
    ensures { result ≡ read_longitude text.now }
{
    if !is_spaced(text) {
        return Err(Fault::WrongText);
    }
    let degrees = read_numeral(skip_blanks(&text[0..3])).ok_or(Fault::WrongNumber)?;
    angle_with(12_959_999, false, degrees, text)
}

// A latitude: within 90 degrees. Its minus sign is read from the text of its degrees, so that of -0 too.
#[tactic(auto, unfolding(crate::specs::Angle::read_latitude))]
pub fn read_latitude(text: &[u8]) -> Result<i32, Fault>
    ensures { result ≡ read_latitude text.now }
{
    if !is_spaced(text) {
        return Err(Fault::WrongText);
    }
    let (negative, digits) = take_sign(skip_blanks(&text[0..3]));
    let degrees = read_numeral(digits).ok_or(Fault::WrongNumber)?;
    angle_with(3_240_000, negative, degrees, text)
}

// A height: from -9999.9 to 99999.9 metres.
#[tactic(auto, unfolding(crate::specs::Angle::read_height))]
pub fn read_height(text: &[u8]) -> Result<i32, Fault>
    ensures { result ≡ read_height text.now }
{
    let (negative, digits) = take_sign(skip_blanks(text));
    let tenths = read_tenths(digits).ok_or(Fault::WrongNumber)?;
    height_of(negative, tenths)
}

// A height of n tenths of a metre, or below zero.
fn height_of(negative: bool, n: u32) -> Result<i32, Fault>
    ensures { result ≡ height negative n }
{
    let most = if negative { 99_999 } else { 999_999 };
    if n > most {
        return Err(Fault::NumberOutOfRange);
    }
    Ok(with_sign(negative, n))
}

// A longitude or a latitude: three columns of degrees, with the sign before them, two of minutes, four of seconds.
pub fn write_angle(z: i32) -> [u8; 11]
    ensures { result ≡ angle_text z }
{
    let n = u64::from(z.unsigned_abs());
    let mut out = [b' '; 11];
    out[9] = b'.';
    put_digits(&mut out[10..11], n);
    put_right(&mut out[7..9], false, n % 600 / 10);
    put_right(&mut out[4..6], false, n / 600 % 60);
    put_right(&mut out[0..3], z < 0, n / 36000);
    out
}

// A height, in seven columns.
pub fn write_height(z: i32) -> [u8; 7]
    ensures { result ≡ height_text z }
{
    let n = u64::from(z.unsigned_abs());
    let mut out = [b'.'; 7];
    put_digits(&mut out[6..7], n);
    put_right(&mut out[0..5], z < 0, n / 10);
    out
}
