// What holds of the records and their lines. Each function does nothing: its contract is the law.
ghost use Rattle.record_laws.specs.Examples.{LinesOfTheGate};
ghost use Rattle.record_laws.specs.Laws.{KeysAreOrdered};
ghost use Rattle.record_laws.specs.MatrixLaws.{CellsComeBack, MatrixLinesAreValid};
ghost use Rattle.record_laws.specs.Shown.{LinesAreShown};
ghost use Rattle.record_laws.specs.Valid.{SitesAreValid, SpansAreValid, ParametersAreValid, HeadersAreValid};
ghost use Rattle.record_laws.specs.Valid.{SitesAreNamed, SpansAreNamed, ParametersAreNamed, SitesComeBack, SpansComeBack, ParametersComeBack, HeadersComeBack};

// The keys of each kind are totally ordered, and only equal keys compare equal.
pub fn keys_are_ordered()
    ensures { KeysAreOrdered }
{}

// What is read of a line that can be printed is a valid record of its kind.
pub fn records_are_valid()
    ensures sites { SitesAreValid }
    ensures spans { SpansAreValid }
    ensures parameters { ParametersAreValid }
    ensures headers { HeadersAreValid }
    ensures matrices { MatrixLinesAreValid }
{}

// A line whose record is read names that record: its key alone, read for a drop, is that record's.
pub fn lines_name_records()
    ensures sites { SitesAreNamed }
    ensures spans { SpansAreNamed }
    ensures parameters { ParametersAreNamed }
{}

// What is written of a valid record is read as it was.
pub fn records_come_back()
    ensures sites { SitesComeBack }
    ensures spans { SpansComeBack }
    ensures parameters { ParametersComeBack }
    ensures headers { HeadersComeBack }
    ensures cells { CellsComeBack }
{}

// What is written of a valid record can be printed.
pub fn lines_can_be_printed()
    ensures { LinesAreShown }
{}

// A worked example: the lines of a small solution.
pub fn examples_hold()
    ensures { LinesOfTheGate }
{}
