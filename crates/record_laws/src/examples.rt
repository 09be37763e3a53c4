// A worked example, as the code writes it.
ghost use Rattle.std.specs.Prelude.{◌≡◌};
ghost use Rattle.record_laws.specs.Examples.{gate_line};

use codes::letters::Technique;
use records::keys::SiteKey;
use records::sites::{Site, write_site};

// The line of a site 15 minutes and half a second south of the equator, 12.5 metres below zero height.
pub fn gate_line() -> [u8; 80]
    ensures { result ≡ gate_line }
{
    let gate = Site {
        key: SiteKey {
            code: *b"GRD1",
            point: *b"A ",
        },
        monument: *b"10000M001",
        technique: Technique::Gnss,
        description: *b"Quarry gate           ",
        longitude: 450000,
        latitude: -9005,
        height: -125,
    };
    write_site(&gate)
}
