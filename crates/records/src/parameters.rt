// Parameters: what is estimated, or taken for known beforehand, of a site, of the earth's rotation and of more.
ghost use Rattle.std.specs.Prelude.{◌≡◌, length};
ghost use Rattle.records.specs.Parameters.{type_of, parameter_key_by, read_measure, read_parameter, read_index, read_indexed, parameter_named, parameter_order, blank_parameter};
ghost use Rattle.records.specs.Copies.{parameter_key_text, measure_text, unit_of, parameter_text};
ghost use Rattle.records.specs.KeyOrders.{parameter_order_lem};

use crate::keys::{
    Between, Blank, Ignored, SolutionKey, read_solution_columns, write_solution_columns,
};
use codes::letters::{Constraint, read_code};
use codes::texts::{check_blank, read_text};
use codes::types::{ParameterType, check_type, find_type};
use decimals::number::{Deviation, Number};
use decimals::reads::{read_deviation, read_number};
use decimals::writes::{write_deviation, write_number};
use fields::counts::{read_count, write_index};
use fields::epochs::{Epoch, read_epoch, write_epoch};
use refusals::Fault;
use std::cmp::Ordering;
use tables::table::Record;

// What a parameter is known by: where, the name of its type, and when.
#[derive(Clone, Copy, PartialEq, Eq, PartialOrd, Ord, Debug)]
pub struct ParameterKey {
    pub at: SolutionKey,
    pub name: [u8; 6],
    pub epoch: Epoch,
}

// An estimate or an a priori. Its unit is that of its type.
#[derive(Clone, Copy)]
pub struct Parameter {
    pub key: ParameterKey,
    pub constraint: Constraint,
    pub value: Number,
    pub deviation: Deviation,
}

// Parameters in the order of site, point, solution, type and epoch. The blank parameter has the first constraint, Fixed.
impl Record for Parameter {
    ghost order = { parameter_order };

    ghost bare = { blank_parameter };

    ghost lawful = { parameter_order_lem };

    fn compare(&self, other: &Parameter) -> Ordering {
        self.key.cmp(&other.key)
    }

    fn blank() -> Parameter {
        Parameter {
            key: ParameterKey {
                at: SolutionKey::blank(),
                name: [b' '; 6],
                epoch: Epoch::Open,
            },
            constraint: Constraint::Fixed,
            value: Number::ZERO,
            deviation: Deviation::ZERO,
        }
    }
}

// The type's name, a solution's twelve columns and an epoch, each with a column before it: the 33 columns after the index.
fn read_parameter_columns<B: Between>(columns: &[u8]) -> Result<ParameterKey, Fault>
    requires { length columns.now ≡ 33 }
    ensures { result ≡ parameter_key_by B.check columns.now }
{
    B::check(&columns[0..1])?;
    let name = read_text(&columns[1..7])?;
    B::check(&columns[7..8])?;
    let at = read_solution_columns::<B>(&columns[8..20])?;
    B::check(&columns[20..21])?;
    let epoch = read_epoch(&columns[21..33])?;
    Ok(ParameterKey { at, name, epoch })
}

// A constraint, a value and a deviation, with blanks between them: the last 35 columns.
fn read_measure(columns: &[u8]) -> Result<(Constraint, Number, Deviation), Fault>
    requires { length columns.now ≡ 35 }
    ensures { result ≡ read_measure columns.now }
{
    let constraint = read_code(&columns[0..1])?;
    check_blank(&columns[1..2])?;
    let value = read_number(&columns[2..23])?;
    check_blank(&columns[23..24])?;
    let deviation = read_deviation(&columns[24..35])?;
    Ok((constraint, value, deviation))
}

// The parameter of a data line's 80 columns, whatever its index: the first six columns are not looked at.
pub fn read_parameter(line: &[u8; 80]) -> Result<Parameter, Fault>
    ensures { result ≡ read_parameter line.now }
{
    let key = read_parameter_columns::<Blank>(&line[6..39])?;
    check_blank(&line[39..40])?;
    let unit: [u8; 4] = read_text(&line[40..44])?;
    check_blank(&line[44..45])?;
    let (constraint, value, deviation) = read_measure(&line[45..80])?;
    check_type(&key.name, &unit)?;
    Ok(Parameter {
        key,
        constraint,
        value,
        deviation,
    })
}

// The index of a parameter's data line.
pub fn read_index(line: &[u8; 80]) -> Result<u32, Fault>
    ensures { result ≡ read_index line.now }
{
    read_count(&line[1..6])
}

// The index and the parameter of a data line.
pub fn read_indexed_parameter(line: &[u8; 80]) -> Result<(u32, Parameter), Fault>
    ensures { result ≡ read_indexed line.now }
{
    let index = read_index(line)?;
    let parameter = read_parameter(line)?;
    Ok((index, parameter))
}

fn known_type(name: &[u8]) -> Result<ParameterType, Fault>
    ensures { result ≡ type_of name.now }
{
    find_type(name).ok_or(Fault::WrongType)
}

// A blank parameter with the key that a data line names; only the columns of the key's codes and epoch are looked at.
pub fn read_parameter_key(line: &[u8; 80]) -> Result<Parameter, Fault>
    ensures { result ≡ parameter_named line.now }
{
    let key = read_parameter_columns::<Ignored>(&line[6..39])?;
    known_type(&key.name)?;
    Ok(Parameter {
        key,
        ..Parameter::blank()
    })
}

fn write_parameter_columns(k: &ParameterKey) -> [u8; 33]
    ensures { result ≡ parameter_key_text k.now }
{
    let mut out = [b' '; 33];
    out[21..33].copy_from_slice(&write_epoch(&k.epoch));
    out[8..20].copy_from_slice(&write_solution_columns(&k.at));
    out[1..7].copy_from_slice(&k.name);
    out
}

fn write_measure(p: &Parameter) -> [u8; 35]
    ensures { result ≡ measure_text p.now }
{
    let mut out = [b' '; 35];
    out[24..35].copy_from_slice(&write_deviation(&p.deviation));
    out[2..23].copy_from_slice(&write_number(&p.value));
    out[0] = p.constraint.digit();
    out
}

// The unit of a type of the table; blank for another name. A match: of a closure that gives an array out of a struct the check learns nothing.
fn unit_of(name: &[u8]) -> [u8; 4]
    ensures { result ≡ unit_of name.now }
{
    match find_type(name) {
        Some(t) => t.unit,
        None => [b' '; 4],
    }
}

// The 80 columns of a parameter's data line in a fair copy.
pub fn write_parameter(index: u32, p: &Parameter) -> [u8; 80]
    ensures { result ≡ parameter_text index p.now }
{
    let mut out = [b' '; 80];
    out[45..80].copy_from_slice(&write_measure(p));
    out[40..44].copy_from_slice(&unit_of(&p.key.name));
    out[6..39].copy_from_slice(&write_parameter_columns(&p.key));
    out[1..6].copy_from_slice(&write_index(index));
    out
}
