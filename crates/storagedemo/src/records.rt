// Two kinds of records, a code with a number and a code with a time, and the value of a cell.
ghost use Rattle.std.specs.Prelude.{refl};
ghost use Rattle.storagedemo.specs.Records.{reading_order, bare_reading, visit_order, bare_visit, zero_amount, is_zero};
ghost use Rattle.storagedemo.specs.Keys.{reading_order_lem, visit_order_lem};

use std::cmp::Ordering;
use std::fmt;
use tables::table::Record;
use triangle::cell::Cell;

#[derive(Clone, Copy, PartialEq, Eq, PartialOrd, Ord, Debug)]
pub struct Code {
    pub letter: u8,
    pub digit: u8,
}

// Its key is the code.
#[derive(Clone, Copy)]
pub struct Reading {
    pub code: Code,
    pub number: u32,
}

// Its key is all of it: the code, then the time.
#[derive(Clone, Copy, PartialEq, Eq, PartialOrd, Ord, Debug)]
pub struct Visit {
    pub code: Code,
    pub hour: u8,
    pub minute: u8,
}

#[derive(Clone, Copy)]
pub struct Amount {
    pub value: u32,
}

impl fmt::Display for Code {
    fn fmt<W: fmt::Write>(&self, f: &mut fmt::Formatter<W>) -> fmt::Result {
        let letter = char::from(self.letter);
        let digit = char::from(self.digit);
        write!(f, "{letter}{digit}")
    }
}

impl fmt::Display for Reading {
    fn fmt<W: fmt::Write>(&self, f: &mut fmt::Formatter<W>) -> fmt::Result {
        let Reading { code, number } = self;
        write!(f, "{code}={number}")
    }
}

impl fmt::Display for Visit {
    fn fmt<W: fmt::Write>(&self, f: &mut fmt::Formatter<W>) -> fmt::Result {
        let Visit { code, hour, minute } = self;
        write!(f, "{code}@{hour}:{minute:02}")
    }
}

impl Record for Reading {
    ghost order = { reading_order };

    ghost bare = { bare_reading };

    ghost lawful = { reading_order_lem };

    fn compare(&self, other: &Reading) -> Ordering {
        self.code.cmp(&other.code)
    }

    fn blank() -> Reading {
        Reading {
            code: Code {
                letter: b'.',
                digit: b'.',
            },
            number: 0,
        }
    }
}

impl Record for Visit {
    ghost order = { visit_order };

    ghost bare = { bare_visit };

    ghost lawful = { visit_order_lem };

    fn compare(&self, other: &Visit) -> Ordering {
        self.cmp(other)
    }

    fn blank() -> Visit {
        Visit {
            code: Code {
                letter: b'.',
                digit: b'.',
            },
            hour: 0,
            minute: 0,
        }
    }
}

impl Cell for Amount {
    ghost nought = { zero_amount };

    ghost is_nought = { is_zero };

    ghost void = { refl };

    fn zero() -> Amount {
        Amount { value: 0 }
    }

    fn is_zero(&self) -> bool {
        self.value == 0
    }
}
