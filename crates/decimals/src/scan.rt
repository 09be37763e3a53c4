// The parts that every field is read by: blanks, a sign, a run of digits.
ghost use Rattle.std.specs.Prelude.{◌≡◌, ℕ, ◌+◌, ◌*◌, ◌^◌, ◌<◌, ◌≤◌, length};
ghost use Rattle.decimals.specs.Scan.{unblank, minus, unsigned, digits_from, count, past};
ghost use Rattle.decimals.specs.Number.{blank, digits_of_text};

// A run of digits: the number that they continue, how many they are, and what follows them.
#[derive(Clone, Copy)]
pub(crate) struct Run<'a> {
    pub value: u128,
    pub count: usize,
    pub rest: &'a [u8],
}

// What follows the blanks at the front.
pub fn skip_blanks(s: &[u8]) -> &[u8]
    ensures rest { result.now ≡ unblank s.now }
    ensures short { length result.now ≤ length s.now }
{
    let blanks = s.iter().take_while(|c| **c == b' ').count();
    &s[blanks..]
}

// Whether a minus sign is at the front, and what follows the sign, if there is one.
pub fn take_sign(s: &[u8]) -> (bool, &[u8])
    ensures sign { result.0 ≡ minus s.now }
    ensures rest { result.1.now ≡ unsigned s.now }
    ensures short { length result.1.now ≤ length s.now }
{
    match s {
        [b'-', rest @ ..] => (true, rest),
        [b'+', rest @ ..] => (false, rest),
        _ => (false, s),
    }
}

// The digits at the front, which continue the number `v`.
pub(crate) fn digits(s: &[u8], v: u128) -> Run<'_>
    requires { (v + 1) * 10 ^ length s.now ≤ 2 ^ 127 }
    ensures value { result.value ≡ digits_from v s.now }
    ensures count { result.count ≡ count s.now }
    ensures rest { result.rest.now ≡ past s.now }
    ensures bound { (result.value + 1) * 10 ^ length result.rest.now ≤ (v + 1) * 10 ^ length s.now }
    ensures size { result.count + length result.rest.now ≡ length s.now }
{
    let mut value = v;
    let mut rest = s;
    while let [digit @ b'0'..=b'9', tail @ ..] = rest {
        value = value * 10 + u128::from(*digit - b'0');
        rest = tail;
    }
    Run {
        value,
        count: s.len() - rest.len(),
        rest,
    }
}

// Whether there are only blanks.
pub fn is_blank(s: &[u8]) -> bool
    ensures { result ≡ blank s.now }
{
    s.iter().all(|c| *c == b' ')
}

// Digits with at most one point: `places` of them are after it.
#[derive(Clone, Copy)]
pub(crate) struct Mantissa<'a> {
    pub value: u128,
    pub count: usize,
    pub places: usize,
    pub rest: &'a [u8],
}

// The digits at the front, with a point among them or none.
pub(crate) fn take_mantissa(s: &[u8]) -> Mantissa<'_>
    requires { length s.now ≤ 21 }
    ensures value { result.value ≡ (digits_of_text s.now).value }
    ensures count { result.count ≡ (digits_of_text s.now).count }
    ensures places { result.places ≡ (digits_of_text s.now).places }
    ensures rest { result.rest.now ≡ (digits_of_text s.now).rest }
    ensures tight { result.value < 10 ^ length s.now }
    ensures short { result.places + length result.rest.now ≤ 21 }
{
    let whole = digits(s, 0);
    match whole.rest {
        [b'.', tail @ ..] => {
            let part = digits(tail, whole.value);
            Mantissa {
                value: part.value,
                count: whole.count + part.count,
                places: part.count,
                rest: part.rest,
            }
        }
        _ => Mantissa {
            value: whole.value,
            count: whole.count,
            places: 0,
            rest: whole.rest,
        },
    }
}
