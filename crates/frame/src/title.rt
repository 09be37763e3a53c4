// The titles of the blocks.
ghost use Rattle.std.specs.Prelude.{◌≡◌, ◌<◌, ◌≤◌, length};
ghost use Rattle.frame.specs.Titles.{name_of, place_of};

// The 26 titles that a block may have, in the order of the format.
#[derive(Clone, Copy, PartialEq, Eq)]
pub enum Title {
    FileReference,
    FileComment,
    InputHistory,
    InputFiles,
    InputAcknowledgements,
    NutationData,
    PrecessionData,
    SourceId,
    SiteId,
    SiteData,
    SiteReceiver,
    SiteAntenna,
    SiteGpsPhaseCenter,
    SiteGalPhaseCenter,
    SiteEccentricity,
    SatelliteId,
    SatellitePhaseCenter,
    BiasEpochs,
    SolutionEpochs,
    SolutionStatistics,
    SolutionEstimate,
    SolutionApriori,
    SolutionMatrixEstimate,
    SolutionMatrixApriori,
    SolutionNormalEquationVector,
    SolutionNormalEquationMatrix,
}

// The 26 titles.
pub const TITLES: [Title; 26] = [
    Title::FileReference,
    Title::FileComment,
    Title::InputHistory,
    Title::InputFiles,
    Title::InputAcknowledgements,
    Title::NutationData,
    Title::PrecessionData,
    Title::SourceId,
    Title::SiteId,
    Title::SiteData,
    Title::SiteReceiver,
    Title::SiteAntenna,
    Title::SiteGpsPhaseCenter,
    Title::SiteGalPhaseCenter,
    Title::SiteEccentricity,
    Title::SatelliteId,
    Title::SatellitePhaseCenter,
    Title::BiasEpochs,
    Title::SolutionEpochs,
    Title::SolutionStatistics,
    Title::SolutionEstimate,
    Title::SolutionApriori,
    Title::SolutionMatrixEstimate,
    Title::SolutionMatrixApriori,
    Title::SolutionNormalEquationVector,
    Title::SolutionNormalEquationMatrix,
];

impl Title {
    // The first word of the title's line, after its sign.
    pub fn name(self) -> &'static [u8]
        ensures { name_of self ≡ result.now }
    {
        match self {
            Title::FileReference => b"FILE/REFERENCE",
            Title::FileComment => b"FILE/COMMENT",
            Title::InputHistory => b"INPUT/HISTORY",
            Title::InputFiles => b"INPUT/FILES",
            Title::InputAcknowledgements => b"INPUT/ACKNOWLEDGEMENTS",
            Title::NutationData => b"NUTATION/DATA",
            Title::PrecessionData => b"PRECESSION/DATA",
            Title::SourceId => b"SOURCE/ID",
            Title::SiteId => b"SITE/ID",
            Title::SiteData => b"SITE/DATA",
            Title::SiteReceiver => b"SITE/RECEIVER",
            Title::SiteAntenna => b"SITE/ANTENNA",
            Title::SiteGpsPhaseCenter => b"SITE/GPS_PHASE_CENTER",
            Title::SiteGalPhaseCenter => b"SITE/GAL_PHASE_CENTER",
            Title::SiteEccentricity => b"SITE/ECCENTRICITY",
            Title::SatelliteId => b"SATELLITE/ID",
            Title::SatellitePhaseCenter => b"SATELLITE/PHASE_CENTER",
            Title::BiasEpochs => b"BIAS/EPOCHS",
            Title::SolutionEpochs => b"SOLUTION/EPOCHS",
            Title::SolutionStatistics => b"SOLUTION/STATISTICS",
            Title::SolutionEstimate => b"SOLUTION/ESTIMATE",
            Title::SolutionApriori => b"SOLUTION/APRIORI",
            Title::SolutionMatrixEstimate => b"SOLUTION/MATRIX_ESTIMATE",
            Title::SolutionMatrixApriori => b"SOLUTION/MATRIX_APRIORI",
            Title::SolutionNormalEquationVector => b"SOLUTION/NORMAL_EQUATION_VECTOR",
            Title::SolutionNormalEquationMatrix => b"SOLUTION/NORMAL_EQUATION_MATRIX",
        }
    }

    // The title's place among the 26, from 0.
    pub fn place(self) -> usize
        ensures { result ≡ place_of self }
    {
        self as usize
    }
}
