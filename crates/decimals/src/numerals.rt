// Whole numbers and tenths, as counts, epochs, angles and heights are made of them.
ghost use Rattle.std.specs.Prelude.{◌≡◌, ◌^◌, ◌<◌, ◌≤◌, length, IfSome};
ghost use Rattle.decimals.specs.Numeral.{numeral, tenths};

use crate::scan::{digits, take_mantissa};

// One to nine digits, and nothing else.
pub fn read_numeral(s: &[u8]) -> Option<u32>
    ensures value { result ≡ numeral s.now }
    ensures small { IfSome result (λ n. n < 10 ^ length s.now) }
{
    if s.is_empty() || s.len() > 9 {
        return None;
    }
    let run = digits(s, 0);
    run.rest.is_empty().then(|| run.value as u32)
}

// Digits, a point and one digit, and nothing else, in at most nine bytes: as tenths.
pub fn read_tenths(s: &[u8]) -> Option<u32>
    ensures value { result ≡ tenths s.now }
    ensures small { IfSome result (λ n. n < 10 ^ length s.now) }
{
    if s.len() > 9 {
        return None;
    }
    let m = take_mantissa(s);
    if m.count >= 2 && m.places == 1 && m.rest.is_empty() {
        Some(m.value as u32)
    } else {
        None
    }
}
