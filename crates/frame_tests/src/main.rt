// What is printed of the frames of many small contents, which a table on standard input lists.
//
// A line `# name` begins a case whose frame is reported, a line `## name` one whose header is reported too. The lines after it
// are its content, but for two signs: a line `@` stands for the five
// blocks that every file has, each with no line in it, and a backslash at the end of a line takes away the byte 10 after it.
#![tactic(auto)]

use media::bytes::Bytes;
use reports::files::file_report;
use reports::frames::frame_report;
use std::alloc::{AllocError, Global};
use std::io;
use std::io::Write;

const FIVE_BLOCKS: &[u8] = b"+SITE/ID
-SITE/ID
+SOLUTION/EPOCHS
-SOLUTION/EPOCHS
+SOLUTION/ESTIMATE
-SOLUTION/ESTIMATE
+SOLUTION/APRIORI
-SOLUTION/APRIORI
+SOLUTION/MATRIX_ESTIMATE L COVA
-SOLUTION/MATRIX_ESTIMATE L COVA
";

// A case of the table: its content, and whether its header is reported too.
#[derive(Drop)]
struct Case {
    content: Vec<u8>,
    with_header: bool,
}

impl Case {
    fn new(heap: Global, with_header: bool) -> Case {
        Case {
            content: Vec::new(heap),
            with_header,
        }
    }

    fn add_line(&mut self, line: &[u8]) -> Result<(), AllocError> {
        if line == b"@".as_slice() {
            return self.content.extend_from_slice(FIVE_BLOCKS);
        }
        if let Some(unended) = line.strip_suffix(b"\\") {
            return self.content.extend_from_slice(unended);
        }
        self.content.extend_from_slice(line)?;
        self.content.extend_from_slice(b"\n")
    }

    fn print(&self, rt: &HostRuntime) -> io::Result<()> {
        let source = Bytes::new(&self.content);
        let report = if self.with_header {
            file_report(rt.alloc(), &source)?
        } else {
            frame_report(rt.alloc(), &source)?
        };
        rt.stdout().write_all(&report)
    }
}

fn main(rt: HostRuntime) -> io::Result<()> {
    // the lines before the first case: they are one only where there is no other
    let mut before = Case::new(rt.alloc(), false);
    let mut case: Option<Case> = None;
    for line in rt.lines(rt.alloc()) {
        let line = line?;
        if line.starts_with("#") {
            match &case {
                Some(done) => done.print(&rt)?,
                // they belong to no case: their memory is given back
                None => before = Case::new(rt.alloc(), false),
            }
            case = Some(Case::new(rt.alloc(), line.starts_with("##")));
            rt.println(line)?;
        } else {
            case.as_mut()
                .unwrap_or(&mut before)
                .add_line(line.as_bytes())?;
        }
    }
    case.as_ref().unwrap_or(&before).print(&rt)
}
