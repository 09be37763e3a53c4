// The commands of a worksheet.
ghost use Rattle.worksheets.specs.Commands.{Spells, read_command, spelled};
ghost use Rattle.std.specs.Prelude.{◌≡◌};

use codes::letters::MatrixKind;
use codes::texts::same_text;
use model::counts::Sort;

// What a command line asks for. The lines that it takes as arguments come after it.
#[derive(Clone, Copy)]
pub enum Command {
    SetHead(MatrixKind),
    Put(Sort),
    Drop(Sort),
    SetCell,
}

static COMMANDS: [Command; 12] = [
    Command::SetHead(MatrixKind::Correlation),
    Command::SetHead(MatrixKind::Covariance),
    Command::SetHead(MatrixKind::Information),
    Command::Put(Sort::Site),
    Command::Put(Sort::Span),
    Command::Put(Sort::Estimate),
    Command::Put(Sort::Apriori),
    Command::Drop(Sort::Site),
    Command::Drop(Sort::Span),
    Command::Drop(Sort::Estimate),
    Command::Drop(Sort::Apriori),
    Command::SetCell,
];

impl Command {
    // The line that spells the command.
    pub fn words(self) -> &'static [u8]
        ensures { result.now ≡ spelled self }
    {
        match self {
            Command::SetHead(MatrixKind::Correlation) => b"set head CORR",
            Command::SetHead(MatrixKind::Covariance) => b"set head COVA",
            Command::SetHead(MatrixKind::Information) => b"set head INFO",
            Command::Put(Sort::Site) => b"put site",
            Command::Put(Sort::Span) => b"put span",
            Command::Put(Sort::Estimate) => b"put estimate",
            Command::Put(Sort::Apriori) => b"put apriori",
            Command::Drop(Sort::Site) => b"drop site",
            Command::Drop(Sort::Span) => b"drop span",
            Command::Drop(Sort::Estimate) => b"drop estimate",
            Command::Drop(Sort::Apriori) => b"drop apriori",
            Command::SetCell => b"set cell",
        }
    }
}

// The command that a line spells, or none.
pub fn read_command(line: &[u8]) -> Option<Command>
    ensures value { result ≡ read_command line.now }
    ensures spells { Spells line.now result }
{
    COMMANDS
        .iter()
        .find(|command| same_text(line, command.words()))
        .copied()
}
