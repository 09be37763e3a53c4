// What reading and writing the fields have to do with each other.
ghost use Rattle.fields.specs.Angle.{LongitudesComeBack, LatitudesComeBack, HeightsComeBack};
ghost use Rattle.fields.specs.Count.{CountsComeBack};
ghost use Rattle.fields.specs.Epoch.{EpochsComeBack, MomentsComeBack, OrderOfTime, EpochsAreOrdered};
ghost use Rattle.fields.specs.Examples.{WorkedExamples};
ghost use Rattle.fields.specs.Widths.{WidthsAreExact};

// What is read of a field is kept within its rule, and what is written of that is read as it was, in exactly its columns.
pub fn fields_come_back()
    ensures epochs { EpochsComeBack }
    ensures moments { MomentsComeBack }
    ensures counts { CountsComeBack }
    ensures longitudes { LongitudesComeBack }
    ensures latitudes { LatitudesComeBack }
    ensures heights { HeightsComeBack }
    ensures widths { WidthsAreExact }
{}

// Epochs are totally ordered, and those that are not open by time.
pub fn epochs_are_ordered()
    ensures order { EpochsAreOrdered }
    ensures time { OrderOfTime }
{}

// The worked examples of the rules.
pub fn examples_hold()
    ensures { WorkedExamples }
{}
