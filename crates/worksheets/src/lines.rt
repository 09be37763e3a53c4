// The lines of a worksheet: byte 10 ends a line, and the last may lack it.
ghost use Rattle.std.specs.Prelude.{◌≡◌, ◌+◌, ◌^◌, ◌<◌, ◌≤◌, ◌∷◌, length, IfErr};
ghost use Rattle.std.specs.Result.{result_ok};
ghost use Rattle.worksheets.specs.Taking.{Shorter, counted, line_then};
ghost use Rattle.frame.specs.Lines.{lines};

// What is left of a worksheet, and how many lines were taken from it.
#[derive(Drop)]
pub(crate) struct Lines<'a> {
    pub(crate) rest: &'a [u8],
    pub(crate) taken: usize,
    ghost bound: { taken + length rest.now < 2 ^ 63 },
}

// The first line without its end, and what comes after it.
fn split_line(bytes: &[u8]) -> (&[u8], &[u8])
    requires { 0 < length bytes.now }
    ensures line { lines bytes.now ≡ result.0.now ∷ lines result.1.now }
    ensures shorter { length result.1.now < length bytes.now }
{
    match bytes.iter().position(|b| *b == b'\n') {
        Some(n) => (&bytes[..n], &bytes[n + 1..]),
        None => (bytes, &bytes[bytes.len()..]),
    }
}

impl<'a> Lines<'a> {
    pub(crate) fn new(sheet: &'a [u8]) -> Lines<'a>
        ensures rest { result.rest.now ≡ sheet.now }
        ensures taken { result.taken ≡ 0 }
    {
        Lines {
            rest: sheet,
            taken: 0,
        }
    }

    // The next line without its end; none at the end of the worksheet.
    pub(crate) fn next_line(&mut self) -> Option<&'a [u8]>
        ensures line { lines self.old.rest.now ≡ line_then result self.new.rest.now }
        ensures taken { self.new.taken ≡ counted result self.old.taken }
        ensures shorter { Shorter result self.old.rest.now self.new.rest.now }
    {
        if self.rest.is_empty() {
            return None;
        }
        let (line, rest) = split_line(self.rest);
        self.rest = rest;
        self.taken += 1;
        Some(line)
    }

    // The next line, which a command takes; or the number of the line that is missing.
    pub(crate) fn argument(&mut self) -> Result<&'a [u8], usize>
        ensures line { lines self.old.rest.now ≡ line_then (result_ok result) self.new.rest.now }
        ensures taken { self.new.taken ≡ counted (result_ok result) self.old.taken }
        ensures missing { IfErr result (λ n. n ≡ self.old.taken + 1) }
        ensures shorter { length self.new.rest.now ≤ length self.old.rest.now }
    {
        self.next_line().ok_or(self.taken + 1)
    }
}
