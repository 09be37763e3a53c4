// Decimal numbers, read.
ghost use Rattle.std.specs.Prelude.{◌≡◌, ℕ, ◌+◌, ◌*◌, ◌/◌, ◌^◌, ◌<◌, ◌≤◌, true, false, length, pos, negsuc, ◌+ℤ◌, ◌-ℤ◌, ◌≤ℤ◌, IfSome};
ghost use Rattle.decimals.specs.Scan.{unblank};
ghost use Rattle.decimals.specs.Number.{signed, digits_of_text, blank, exponent, exponent_digits, fitted, size, scaled, read_at, read_number, read_deviation};

use crate::number::{Deviation, Number};
use crate::scan::{digits, is_blank, skip_blanks, take_mantissa, take_sign};
use refusals::Fault;

fn signed(negative: bool, n: u8) -> i32
    ensures { result ≡ signed negative n }
{
    if negative {
        -i32::from(n)
    } else {
        i32::from(n)
    }
}

// One or two digits, and blanks to the end.
fn exponent_digits(negative: bool, s: &[u8]) -> Option<i32>
    ensures value { result ≡ exponent_digits negative s.now }
    ensures small { IfSome result (λ e. (negsuc 98 ≤ℤ e) × (e ≤ℤ pos 99)) }
{
    match s {
        [ones @ b'0'..=b'9', rest @ ..] if is_blank(rest) => Some(signed(negative, ones - b'0')),
        [tens @ b'0'..=b'9', ones @ b'0'..=b'9', rest @ ..] if is_blank(rest) => {
            Some(signed(negative, 10 * (tens - b'0') + (ones - b'0')))
        }
        _ => None,
    }
}

// E or e with one or two digits and a sign or none, or nothing, and blanks to the end.
fn read_exponent(s: &[u8]) -> Option<i32>
    ensures value { result ≡ exponent s.now }
    ensures small { IfSome result (λ e. (negsuc 98 ≤ℤ e) × (e ≤ℤ pos 99)) }
{
    match s {
        [b'E' | b'e', tail @ ..] => {
            let (negative, digits) = take_sign(tail);
            exponent_digits(negative, digits)
        }
        _ => is_blank(s).then_some(0),
    }
}

// The number that is ± all / place × 10^exponent, where that is a whole mantissa and the exponent is in range.
fn fit(negative: bool, all: u128, place: u128, exponent: i32) -> Result<Number, Fault>
    requires { (0 < place) × (all / place ≤ 10 ^ 15) }
    ensures { result ≡ fitted negative all place exponent }
{
    if all % place != 0 || !(-99..=99).contains(&exponent) {
        return Err(Fault::NumberOutOfRange);
    }
    Ok(Number {
        negative,
        mantissa: (all / place) as u64,
        exponent,
    })
}

// The power of ten of the first of `digits` digits, the last of which stands for 10^power.
fn first_power(power: i32, digits: u32) -> i32
    requires digits_bound { digits ≤ 21 }
    requires power_range { (negsuc 200 ≤ℤ power) × (power ≤ℤ pos 200) }
    ensures { result ≡ (power +ℤ pos digits) -ℤ pos 1 }
{
    power + digits as i32 - 1
}

// The number that is ± value × 10^power, at the precision of `unit`, a power of ten.
#[tactic(auto, unfolding(crate::specs::Number::scaled))]
fn scale(negative: bool, value: u128, power: i32, unit: u128) -> Result<Number, Fault>
    requires value_bound { value < 10 ^ 21 }
    requires unit_bound { unit ≤ 10 ^ 15 }
    requires power_range { (negsuc 200 ≤ℤ power) × (power ≤ℤ pos 200) }
    ensures { result ≡ scaled unit (record { negative = negative; value = value; power = power }) }
{
    if value == 0 {
        return Ok(Number::ZERO);
    }
    let digits = value.ilog10() + 1;
    let place = 10u128.pow(digits);
    fit(negative, value * unit, place, first_power(power, digits))
}

// The power of ten of the last digit, with `places` digits after the point.
fn last_power(exponent: i32, places: usize) -> i32
    requires places_bound { places ≤ 21 }
    requires exponent_range { (negsuc 98 ≤ℤ exponent) × (exponent ≤ℤ pos 99) }
    ensures { result ≡ exponent -ℤ pos places }
{
    exponent - places as i32
}

#[tactic(auto, unfolding(crate::specs::Number::read_at))]
fn read_at(text: &[u8], unit: u128) -> Result<Number, Fault>
    requires { unit ≤ 10 ^ 15 }
    ensures { result ≡ read_at unit text.now }
{
    if text.len() > 21 {
        return Err(Fault::WrongNumber);
    }
    let (negative, body) = take_sign(skip_blanks(text));
    let m = take_mantissa(body);
    if m.count == 0 {
        return Err(Fault::WrongNumber);
    }
    let exponent = read_exponent(m.rest).ok_or(Fault::WrongNumber)?;
    scale(negative, m.value, last_power(exponent, m.places), unit)
}

// A number, of at most 15 significant digits.
pub fn read_number(text: &[u8]) -> Result<Number, Fault>
    ensures { result ≡ read_number text.now }
{
    read_at(text, 1_000_000_000_000_000)
}

// A standard deviation: at most six significant digits, and not below zero.
pub fn read_deviation(text: &[u8]) -> Result<Deviation, Fault>
    ensures { result ≡ read_deviation text.now }
{
    let n = read_at(text, 1_000_000)?;
    if n.negative {
        Err(Fault::NumberOutOfRange)
    } else {
        Ok(Deviation {
            mantissa: n.mantissa,
            exponent: n.exponent,
        })
    }
}
