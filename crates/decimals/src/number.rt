// What the register keeps of a decimal number.

// A number: ± mantissa × 10^(exponent - 14), with a mantissa of fifteen digits. Zero is (false, 0, 0).
#[derive(Clone, Copy, PartialEq, Eq, Debug)]
pub struct Number {
    // the widest field first, so that a number takes 16 bytes
    pub mantissa: u64,
    pub exponent: i32,
    pub negative: bool,
}

impl Number {
    pub const ZERO: Number = Number {
        mantissa: 0,
        exponent: 0,
        negative: false,
    };
}

// A standard deviation: mantissa × 10^(exponent - 5), with a mantissa of six digits. Zero is (0, 0).
#[derive(Clone, Copy, PartialEq, Eq, Debug)]
pub struct Deviation {
    pub mantissa: u64,
    pub exponent: i32,
}

impl Deviation {
    pub const ZERO: Deviation = Deviation {
        mantissa: 0,
        exponent: 0,
    };
}
