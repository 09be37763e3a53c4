// The parameter types: a table, looked up by name.
ghost use Rattle.std.specs.Prelude.{◌≡◌};
ghost use Rattle.codes.specs.ParameterTypes.{type_named, check_type};

use crate::letters::Contents;
use crate::texts::same_text;
use refusals::Fault;

// A parameter type. One that is stationed needs its site and a span.
#[derive(Clone, Copy)]
pub struct ParameterType {
    pub name: [u8; 6],
    pub unit: [u8; 4],
    pub contents: Contents,
    pub stationed: bool,
}

// A row of the table.
macro_rules! row {
    ($name:literal, $unit:literal, $contents:ident, $stationed:literal) => {
        ParameterType {
            name: *$name,
            unit: *$unit,
            contents: Contents::$contents,
            stationed: $stationed,
        }
    };
}

static TYPES: [ParameterType; 41] = [
    row!(b"STAX  ", b"m   ", Stations, true),
    row!(b"STAY  ", b"m   ", Stations, true),
    row!(b"STAZ  ", b"m   ", Stations, true),
    row!(b"XGC   ", b"m   ", Stations, false),
    row!(b"YGC   ", b"m   ", Stations, false),
    row!(b"ZGC   ", b"m   ", Stations, false),
    row!(b"VELX  ", b"m/y ", Stations, true),
    row!(b"VELY  ", b"m/y ", Stations, true),
    row!(b"VELZ  ", b"m/y ", Stations, true),
    row!(b"TROTOT", b"m   ", Troposphere, true),
    row!(b"TRODRY", b"m   ", Troposphere, true),
    row!(b"TROWET", b"m   ", Troposphere, true),
    row!(b"TGNTOT", b"m   ", Troposphere, true),
    row!(b"TGNDRY", b"m   ", Troposphere, true),
    row!(b"TGNWET", b"m   ", Troposphere, true),
    row!(b"TGETOT", b"m   ", Troposphere, true),
    row!(b"TGEDRY", b"m   ", Troposphere, true),
    row!(b"TGEWET", b"m   ", Troposphere, true),
    row!(b"AXI_OF", b"m   ", Antennas, true),
    row!(b"SATA_X", b"m   ", Antennas, false),
    row!(b"SATA_Y", b"m   ", Antennas, false),
    row!(b"SATA_Z", b"m   ", Antennas, false),
    row!(b"LOD   ", b"ms  ", EarthOrientation, false),
    row!(b"UT    ", b"ms  ", EarthOrientation, false),
    row!(b"XPO   ", b"mas ", EarthOrientation, false),
    row!(b"YPO   ", b"mas ", EarthOrientation, false),
    row!(b"NUT_LN", b"mas ", EarthOrientation, false),
    row!(b"NUT_OB", b"mas ", EarthOrientation, false),
    row!(b"NUT_X ", b"mas ", EarthOrientation, false),
    row!(b"NUT_Y ", b"mas ", EarthOrientation, false),
    row!(b"XPOR  ", b"ma/d", EarthOrientation, false),
    row!(b"YPOR  ", b"ma/d", EarthOrientation, false),
    row!(b"NUTRLN", b"ma/d", EarthOrientation, false),
    row!(b"NUTROB", b"ma/d", EarthOrientation, false),
    row!(b"NUTR_X", b"ma/d", EarthOrientation, false),
    row!(b"NUTR_Y", b"ma/d", EarthOrientation, false),
    row!(b"RS_RA ", b"rad ", CelestialFrame, false),
    row!(b"RS_DE ", b"rad ", CelestialFrame, false),
    row!(b"RS_PL ", b"rad ", CelestialFrame, false),
    row!(b"RS_RAR", b"rd/y", CelestialFrame, false),
    row!(b"RS_DER", b"rd/y", CelestialFrame, false),
];

// The type of a name, kept as six bytes.
pub fn find_type(name: &[u8]) -> Option<ParameterType>
    ensures { result ≡ type_named name.now }
{
    TYPES.iter().find(|t| same_text(name, &t.name)).copied()
}

// The type of a name, where the unit is its own.
pub fn check_type(name: &[u8], unit: &[u8]) -> Result<ParameterType, Fault>
    ensures { result ≡ check_type name.now unit.now }
{
    find_type(name)
        .filter(|t| same_text(unit, &t.unit))
        .ok_or(Fault::WrongType)
}
