// What reading and writing have to do with each other, and with the values of numbers.
ghost use Rattle.std.specs.Prelude.{◌≡◌};
ghost use Rattle.decimals.specs.Grammar.{NumbersHaveForm, WrongExactly};
ghost use Rattle.decimals.specs.Value.{ValueIsKept, SameExactly, OneForm, RefusedRightly, SameDeviations, DeviationsRefusedRightly};
ghost use Rattle.decimals.specs.Write.{NumbersComeBack, DeviationsComeBack};

// What is read is kept in one form, and what is written of it is read as that same number or deviation.
pub fn numbers_come_back()
    ensures numbers { NumbersComeBack }
    ensures deviations { DeviationsComeBack }
{}

// The texts that say a number are exactly those of the form: blanks, a sign or none, digits with at most one
// point and at least one digit, an exponent or none, blanks. Any other field is refused for its form, and none of these is.
pub fn numbers_have_form()
    ensures form { NumbersHaveForm }
    ensures wrong { WrongExactly }
{}

// Two texts are read as one number exactly where they say one value, a value has one mantissa and
// one exponent, and a text in due form is refused only where no number that can be kept has its value.
pub fn numbers_are_values()
    ensures value { ValueIsKept }
    ensures same { SameExactly }
    ensures form { OneForm }
    ensures refused { RefusedRightly }
    ensures deviations { SameDeviations }
    ensures below { DeviationsRefusedRightly }
{}
