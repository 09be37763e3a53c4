// A refusal as a user sees it.
ghost use Rattle.reports.specs.Refused.{refusal_line};
ghost use Rattle.std.specs.Prelude.{◌≡◌};

use decimals::writes::put_digits;
use refusals::Refusal;

// Two digits for the fault and nine for the line, with zeros in front. Of a line number above 999,999,999 the last nine digits
// would be printed; a source has fewer lines than that, since it has at most 100,000,000 bytes.
pub fn refusal_line(refusal: Refusal) -> [u8; 26]
    ensures { result ≡ refusal_line refusal }
{
    let mut line = *b"REFUSED 00 LINE 000000000\n";
    put_digits(&mut line[16..25], refusal.line as u64);
    put_digits(&mut line[8..10], refusal.fault.number() as u64);
    line
}
