// Checks the frame and the header of a SINEX file: reads the file on standard input, and prints its header and its blocks, or
// the first fault.
#![tactic(auto)]

use frame::walk::LONGEST;
use media::bytes::Bytes;
use reports::files::file_report;
use std::io;
use std::io::{Read, Write};

fn main(rt: HostRuntime) -> io::Result<()> {
    let mut content = Vec::new(rt.alloc());
    // one byte more than a source may have, so that a longer one is seen to be too long
    rt.stdin()
        .take(LONGEST as u64 + 1)
        .read_to_end(&mut content)?;
    let report = file_report(rt.alloc(), &Bytes::new(&content))?;
    rt.stdout().write_all(&report)
}
