// Decimal numbers, written.
ghost use Rattle.std.specs.Prelude.{◌≡◌, ◌-◌, ◌≤◌, ◌∷◌, length, if◌then◌else◌, unsigned_abs};
ghost use Rattle.decimals.specs.Justify.{blanked, marked, justified};
ghost use Rattle.decimals.specs.Write.{fixed, below, digits_text, number_text, deviation_text};

use crate::number::{Deviation, Number};

// The last digits of `m`, as many as there is room for. Written by places: of what is written through `iter_mut().rev()`, the check
// knows nothing afterwards.
pub fn put_digits(out: &mut [u8], m: u64)
    ensures { out.new ≡ fixed (length out.old) m }
{
    let mut rest = m;
    for i in (0..out.len()).rev() {
        out[i] = b'0' + (rest % 10) as u8;
        rest /= 10;
    }
}

// Blanks for the zeros in front, but for the last digit.
fn blank_zeros(out: &mut [u8])
    ensures { out.new ≡ blanked out.old }
{
    let last = out.len().saturating_sub(1);
    for column in &mut out[..last] {
        if *column != b'0' {
            return;
        }
        *column = b' ';
    }
}

// A minus sign for the last of the blanks in front.
fn mark_minus(out: &mut [u8])
    ensures { out.new ≡ marked out.old }
{
    if let [_, after @ ..] = &*out {
        let blanks = after.iter().take_while(|c| **c == b' ').count();
        out[blanks] = b'-';
    }
}

// The last digits of `n`, as many as there is room for, on the right, with a minus sign or none before them.
pub fn put_right(out: &mut [u8], negative: bool, n: u64)
    ensures { out.new ≡ justified negative (length out.old) n }
{
    put_digits(out, n);
    blank_zeros(out);
    if negative {
        mark_minus(out);
    }
}

// E, a sign and two digits.
fn exponent_text(q: i32) -> [u8; 4]
    ensures { result ≡ 69 ∷ ((if below q then 45 else 43) ∷ fixed 2 (unsigned_abs q)) }
{
    let sign = if q < 0 { b'-' } else { b'+' };
    let mut out = [b'E', sign, 0, 0];
    put_digits(&mut out[2..], u64::from(q.unsigned_abs()));
    out
}

// One digit, a point, the digits that there is room for, and the exponent.
fn put_scientific(out: &mut [u8], m: u64, q: i32)
    requires { 7 ≤ length out.old }
    ensures { out.new ≡ digits_text (length out.old - 6) m q }
{
    let (digits, exponent) = out.split_at_mut(out.len() - 4);
    put_digits(&mut digits[1..], m);
    digits[0] = digits[1];
    digits[1] = b'.';
    exponent.copy_from_slice(&exponent_text(q));
}

// A number: a column for the sign, and fourteen digits after the point.
pub fn write_number(n: &Number) -> [u8; 21]
    ensures { result ≡ number_text n.now }
{
    let mut out = [b' '; 21];
    if n.negative {
        out[0] = b'-';
    }
    put_scientific(&mut out[1..], n.mantissa, n.exponent);
    out
}

// A deviation: five digits after the point.
pub fn write_deviation(d: &Deviation) -> [u8; 11]
    ensures { result ≡ deviation_text d.now }
{
    let mut out = [b' '; 11];
    put_scientific(&mut out, d.mantissa, d.exponent);
    out
}
