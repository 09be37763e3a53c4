// Codes of one letter, and the kinds of a matrix: read and written.
ghost use Rattle.std.specs.Prelude.{◌≡◌};
ghost use Rattle.codes.specs.Codes.{by_letter, technique_letter, constraint_digit, contents_letter, read_contents, read_matrix_kind, matrix_kind_text};

use refusals::Fault;

// The technique of the observations, or all of them combined: the letters are the discriminants, and techniques are ordered by them.
#[derive(Clone, Copy, PartialEq, Eq, PartialOrd, Ord, Debug)]
pub enum Technique {
    Combined = b'C' as isize,
    Doris = b'D' as isize,
    SatelliteLaser = b'L' as isize,
    LunarLaser = b'M' as isize,
    Gnss = b'P' as isize,
    Vlbi = b'R' as isize,
}

// How tightly a parameter, or a solution, is constrained, by its digit.
#[derive(Clone, Copy, PartialEq, Eq, Debug)]
pub enum Constraint {
    Fixed = b'0' as isize,
    Significant = b'1' as isize,
    Unconstrained = b'2' as isize,
}

// What sort of parameters a solution has, by its letter.
#[derive(Clone, Copy, PartialEq, Eq, Debug)]
pub enum Contents {
    Stations = b'S' as isize,
    Orbits = b'O' as isize,
    EarthOrientation = b'E' as isize,
    Troposphere = b'T' as isize,
    CelestialFrame = b'C' as isize,
    Antennas = b'A' as isize,
}

// What the cells of a matrix are: correlations, covariances, or normal equations.
#[derive(Clone, Copy, PartialEq, Eq, Debug)]
pub enum MatrixKind {
    Correlation,
    Covariance,
    Information,
}

// A code that a letter stands for. What `try_from` gives of a letter is one answer, `decode`.
pub trait Code: TryFrom<u8, Error = Fault> {
    ghost use Rattle.std.specs.Prelude.{◌≡◌, ℕ, Result};
    ghost use Rattle.refusals.specs.declared.Fault.{Fault};

    ghost decode: { ℕ → Result Self Fault };

    ghost decodes: { (letter : ℕ) (r : Result Self Fault) → Self.try_from_gives letter r → r ≡ decode letter };
}

impl TryFrom<u8> for Technique {
    type Error = Fault;

    ghost use Rattle.std.specs.Prelude.{◌≡◌};
    ghost use Rattle.codes.specs.Codes.{technique_at};

    ghost try_from_gives = { λ letter r. r ≡ technique_at letter };

    fn try_from(letter: u8) -> Result<Technique, Fault> {
        match letter {
            b'C' => Ok(Technique::Combined),
            b'D' => Ok(Technique::Doris),
            b'L' => Ok(Technique::SatelliteLaser),
            b'M' => Ok(Technique::LunarLaser),
            b'P' => Ok(Technique::Gnss),
            b'R' => Ok(Technique::Vlbi),
            _ => Err(Fault::WrongText),
        }
    }
}

impl Code for Technique {
    ghost use Rattle.codes.specs.Codes.{technique_at};

    ghost decode = { technique_at };

    ghost decodes = { λ letter r e. e };
}

impl TryFrom<u8> for Constraint {
    type Error = Fault;

    ghost use Rattle.std.specs.Prelude.{◌≡◌};
    ghost use Rattle.codes.specs.Codes.{constraint_at};

    ghost try_from_gives = { λ digit r. r ≡ constraint_at digit };

    fn try_from(digit: u8) -> Result<Constraint, Fault> {
        match digit {
            b'0' => Ok(Constraint::Fixed),
            b'1' => Ok(Constraint::Significant),
            b'2' => Ok(Constraint::Unconstrained),
            _ => Err(Fault::WrongText),
        }
    }
}

impl Code for Constraint {
    ghost use Rattle.codes.specs.Codes.{constraint_at};

    ghost decode = { constraint_at };

    ghost decodes = { λ letter r e. e };
}

impl TryFrom<u8> for Contents {
    type Error = Fault;

    ghost use Rattle.std.specs.Prelude.{◌≡◌};
    ghost use Rattle.codes.specs.Codes.{contents_at};

    ghost try_from_gives = { λ letter r. r ≡ contents_at letter };

    fn try_from(letter: u8) -> Result<Contents, Fault> {
        match letter {
            b'S' => Ok(Contents::Stations),
            b'O' => Ok(Contents::Orbits),
            b'E' => Ok(Contents::EarthOrientation),
            b'T' => Ok(Contents::Troposphere),
            b'C' => Ok(Contents::CelestialFrame),
            b'A' => Ok(Contents::Antennas),
            _ => Err(Fault::WrongText),
        }
    }
}

impl Code for Contents {
    ghost use Rattle.codes.specs.Codes.{contents_at};

    ghost decode = { contents_at };

    ghost decodes = { λ letter r e. e };
}

// A field of one column: the technique, the constraint or the contents of its letter.
pub fn read_code<T: Code>(text: &[u8]) -> Result<T, Fault>
    ensures { result ≡ by_letter T.decode text.now }
{
    match text {
        [letter] => T::try_from(*letter),
        _ => Err(Fault::WrongText),
    }
}

// One of the six places of the contents letters: a letter, or blank.
pub fn read_contents(text: &[u8]) -> Result<Option<Contents>, Fault>
    ensures { result ≡ read_contents text.now }
{
    match text {
        b" " => Ok(None),
        _ => read_code(text).map(Some),
    }
}

// The kind that a matrix's title names, or none.
#[tactic(auto, using(crate::proofs::Spellings::kind_none))]
pub fn read_matrix_kind(word: &[u8]) -> Option<MatrixKind>
    ensures { result ≡ read_matrix_kind word.now }
{
    match word {
        b"CORR" => Some(MatrixKind::Correlation),
        b"COVA" => Some(MatrixKind::Covariance),
        b"INFO" => Some(MatrixKind::Information),
        _ => None,
    }
}

impl Technique {
    pub fn letter(self) -> u8
        ensures { result ≡ technique_letter self }
    {
        self as u8
    }
}

impl Constraint {
    pub fn digit(self) -> u8
        ensures { result ≡ constraint_digit self }
    {
        self as u8
    }
}

impl Contents {
    pub fn letter(self) -> u8
        ensures { result ≡ contents_letter self }
    {
        self as u8
    }
}

impl MatrixKind {
    pub fn word(self) -> [u8; 4]
        ensures { result ≡ matrix_kind_text self }
    {
        match self {
            MatrixKind::Correlation => *b"CORR",
            MatrixKind::Covariance => *b"COVA",
            MatrixKind::Information => *b"INFO",
        }
    }
}
