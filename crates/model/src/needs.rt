// What records need of each other.
ghost use Rattle.model.specs.Needs.{stationed};
ghost use Rattle.std.specs.Prelude.{◌≡◌};

use codes::types::find_type;
use records::parameters::Parameter;

// Whether a parameter needs its site, and a span of its site, point and solution: its type is one of a station.
pub fn is_stationed(p: &Parameter) -> bool
    ensures { result ≡ stationed p.now }
{
    find_type(&p.key.name).is_some_and(|t| t.stationed)
}
