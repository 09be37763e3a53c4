// Why the register refuses: the numbered faults, and a fault with the line that it is found in.
#![tactic(auto)]

ghost use Rattle.std.specs.Prelude.{◌≡◌};
ghost use Rattle.refusals.specs.Numbers.{number_of};

// A fault, with the number by which users know it.
#[derive(Clone, Copy, PartialEq, Eq, Debug)]
pub enum Fault {
    // the tables handed in have other lengths than the register was made over, or break a limit
    TableLengths = 1,
    // a reading finds a head or a record in the register
    RegisterInUse = 2,
    // the source has more than 100,000,000 bytes
    SourceTooLong = 3,
    // a line has more than 80 bytes, or one that is not printable
    UnfitLine = 4,
    // a line is empty, or its first character says no kind of line
    UnknownLineKind = 5,
    // the first line is no header line, or there is no line
    NoHeaderLine = 6,
    // a line stands where the frame of blocks does not allow it
    BrokenFrame = 7,
    // a block's title is none of the format's
    WrongTitle = 8,
    // a title comes a second time
    TitleTwice = 9,
    // a block that the register takes up is missing
    BlockMissing = 10,
    // a text, a code or a column that has to be blank
    WrongText = 11,
    // an epoch
    WrongEpoch = 12,
    // the form of a number
    WrongNumber = 13,
    // a number has too many digits or lies outside its range
    NumberOutOfRange = 14,
    // a parameter type is unknown, or the unit is another type's
    WrongType = 15,
    // an index is out of step, or the header's count is not the number of estimates
    OutOfStep = 16,
    // a key comes a second time in its block
    KeyTwice = 17,
    // a site or a span that the record needs is missing
    NeedMissing = 18,
    // no place is free in a table
    TableFull = 19,
    // a matrix line states a cell that it may not state
    WrongCell = 20,
    // a writing finds no head
    NoHead = 21,
    // a named record is absent
    RecordAbsent = 22,
    // a record is still needed by another
    StillNeeded = 23,
    // the medium's capacity is too small
    MediumTooSmall = 24,
}

impl Fault {
    // The number of the fault.
    pub fn number(self) -> u8
        ensures { result ≡ number_of self }
    {
        self as u8
    }
}

// A refusal: the fault, and the line of the file that it stands in; 0 where it stands in none.
#[derive(Clone, Copy, PartialEq, Eq, Debug)]
pub struct Refusal {
    pub fault: Fault,
    pub line: u32,
}

// A fault that stands in no line.
impl From<Fault> for Refusal {
    ghost from_gives = { λ fault r. r ≡ record { fault = fault; line = 0 } };

    fn from(fault: Fault) -> Refusal {
        Refusal { fault, line: 0 }
    }
}
