// What holds of fair copies. Each function does nothing: its contract is the law.
ghost use Rattle.copy_laws.specs.CopyLaws.{CopiesAreLines, CopiesReadBack};

// A copy is its lines, each with byte 10 after it: they can be printed, have at most 80 bytes and no blank at their end, and their lengths
// add up to the length that is computed beforehand, below 100,000,000.
pub fn copies_are_their_lines()
    ensures { CopiesAreLines }
{}

// Each line of a copy, read as its record, gives that record back.
pub fn lines_read_back()
    ensures { CopiesReadBack }
{}
