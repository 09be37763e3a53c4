// The ranks of the estimates, and their cells.
ghost use Rattle.std.specs.Prelude.{◌≡◌, ℕ, false, length, is_ok};
ghost use Rattle.model.specs.Steps.{estimate_place, estimate_rank, open_answer, rank_opened, close_answer, rank_closed};
ghost use Rattle.register.specs.Views.{view, SameSlices};
ghost use Rattle.triangle.specs.Triangle.{tri};

use crate::lent::{Register, Tables};
use records::parameters::Parameter;
use refusals::Fault;
use tables::table::find_in;
use triangle::moves::{close_rank, open_rank};

// Where the estimate of p's key stands, or the place before which it would go.
pub(crate) fn place_of(register: &Register, tables: &Tables, p: &Parameter) -> Result<usize, usize>
    ensures { result ≡ estimate_place p.now (view register.now tables.now) }
{
    find_in(tables.estimates, register.used.estimates, p)
}

// The rank of the estimate of p's key.
pub(crate) fn rank_of(register: &Register, tables: &Tables, p: &Parameter) -> Result<usize, Fault>
    ensures { result ≡ estimate_rank p.now (view register.now tables.now) }
{
    place_of(register, tables, p).map_err(|_| Fault::RecordAbsent)
}

// Opens a rank where a new estimate goes; one that is there has its rank.
pub(crate) fn open_for(
    register: &Register,
    tables: &mut Tables,
    place: Result<usize, usize>,
) -> Result<(), Fault>
    ensures answer { result ≡ open_answer place (view register.now tables.old) }
    ensures state { length tables.old.cells.now ≡ tri register.now.places.estimates → view register.now tables.new ≡ rank_opened place (view register.now tables.old) }
    ensures refused { is_ok result ≡ false → view register.now tables.new ≡ view register.now tables.old }
    ensures slices { SameSlices tables.old tables.new }
{
    match place {
        Ok(_) => Ok(()),
        Err(rank) => open_rank(tables.cells, register.used.estimates, rank),
    }
}

// Takes a rank out of the triangle.
pub(crate) fn close_at(register: &Register, tables: &mut Tables, rank: usize) -> Result<(), Fault>
    ensures answer { result ≡ close_answer rank (view register.now tables.old) }
    ensures state { length tables.old.cells.now ≡ tri register.now.places.estimates → view register.now tables.new ≡ rank_closed rank (view register.now tables.old) }
    ensures refused { is_ok result ≡ false → view register.now tables.new ≡ view register.now tables.old }
    ensures slices { SameSlices tables.old tables.new }
{
    close_rank(tables.cells, register.used.estimates, rank)
}
