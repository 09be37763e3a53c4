// What reading and keeping texts and codes have to do with each other.
ghost use Rattle.codes.specs.Codes.{CodesComeBack};
ghost use Rattle.codes.specs.Order.{TextsAreOrdered};
ghost use Rattle.codes.specs.ParameterTypes.{TypesComeBack, TypesAreNamed, TypesAreTexts};
ghost use Rattle.codes.specs.Text.{TextsHaveForm, TextsComeBack, DescriptionsHaveForm, DescriptionsComeBack};

// A text is one word among blanks, a description anything among blanks.
pub fn texts_have_form()
    ensures texts { TextsHaveForm }
    ensures descriptions { DescriptionsHaveForm }
{}

// What is kept of a text or a code is read as it was.
pub fn codes_come_back()
    ensures texts { TextsComeBack }
    ensures descriptions { DescriptionsComeBack }
    ensures codes { CodesComeBack }
{}

// Texts are totally ordered, byte by byte.
pub fn texts_are_ordered()
    ensures { TextsAreOrdered }
{}

// The rule of the table of parameter types.
pub fn types_are_a_table()
    ensures found { TypesComeBack }
    ensures named { TypesAreNamed }
    ensures texts { TypesAreTexts }
{}
