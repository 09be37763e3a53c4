// The letters of a header: which contents the estimates are of.
ghost use Rattle.std.specs.Prelude.{◌≡◌, ◌≤◌, length};
ghost use Rattle.copies.specs.Copy.{is_of, contents_of, six_places};
ghost use Rattle.model.specs.Needs.{any_of};

use codes::letters::Contents;
use codes::types::find_type;
use records::parameters::Parameter;

// The contents that have a letter in a fair copy, in the order of their letters there.
static ORDER: [Contents; 5] = [
    Contents::Stations,
    Contents::EarthOrientation,
    Contents::Troposphere,
    Contents::CelestialFrame,
    Contents::Antennas,
];

// The six places of the letters, and how many of them are filled.
#[derive(Clone, Copy)]
pub(crate) struct Letters {
    pub(crate) places: [Option<Contents>; 6],
    pub(crate) count: usize,
}

// Whether the estimate is of these contents.
fn is_of(contents: Contents, p: &Parameter) -> bool
    ensures { result ≡ is_of contents p.now }
{
    match find_type(&p.key.name) {
        Some(t) => t.contents.letter() == contents.letter(),
        None => false,
    }
}

// Whether one of the estimates is of these contents.
fn any_is_of(contents: Contents, estimates: &[Parameter]) -> bool
    ensures { result ≡ any_of (is_of contents) estimates.now }
{
    for p in estimates {
        if is_of(contents, p) {
            return true;
        }
    }
    false
}

// The letters of the estimates.
pub(crate) fn contents_of(estimates: &[Parameter]) -> Letters
    ensures places { result.places ≡ six_places (contents_of estimates.now) }
    ensures count { result.count ≡ length (contents_of estimates.now) }
    ensures few { result.count ≤ 5 }
{
    let mut places: [Option<Contents>; 6] = [None; 6];
    let mut count = 0;
    for i in 0..5 {
        let contents = ORDER[i];
        if any_is_of(contents, estimates) {
            places[count] = Some(contents);
            count += 1;
        }
    }
    Letters { places, count }
}
