// The edits by the record that they are about, on tables of the register's own lengths.
ghost use Rattle.decimals.specs.Write.{Canonical};
ghost use Rattle.model.specs.Edits.{put_site, put_span, put_estimate, put_apriori, drop_site, drop_span, drop_estimate, drop_apriori, set_cell};
ghost use Rattle.record_laws.specs.Valid.{ValidSite, ValidSpan, ValidParameter};
ghost use Rattle.register.specs.Views.{Step};

use crate::cells::{close_at, open_for, place_of, rank_of};
use crate::lent::{Register, Tables};
use crate::needs::{has_site, has_span_record, is_served, needs_site, needs_span};
use crate::rows::{drop_row, put_row};
use decimals::number::Number;
use records::parameters::Parameter;
use records::sites::Site;
use records::spans::Span;
use refusals::Fault;
use triangle::cell::set_cell;

pub(crate) fn put_site(
    register: &mut Register,
    tables: &mut Tables,
    site: Site,
) -> Result<(), Fault>
    requires { ValidSite site }
    ensures { Step (λ P s. put_site P s site) register.old tables.old result register.new tables.new }
{
    put_row(tables.sites, &mut register.used.sites, site)
}

// A site that is still needed stays.
pub(crate) fn drop_site(
    register: &mut Register,
    tables: &mut Tables,
    site: &Site,
) -> Result<(), Fault>
    ensures { Step (λ P s. drop_site s site.now) register.old tables.old result register.new tables.new }
{
    if !has_site(register, tables, &site.key) {
        return Err(Fault::RecordAbsent);
    }
    if needs_site(register, tables, &site.key) {
        return Err(Fault::StillNeeded);
    }
    drop_row(tables.sites, &mut register.used.sites, site)
}

// A span needs its site.
pub(crate) fn put_span(
    register: &mut Register,
    tables: &mut Tables,
    span: Span,
) -> Result<(), Fault>
    requires { ValidSpan span }
    ensures { Step (λ P s. put_span P s span) register.old tables.old result register.new tables.new }
{
    if !has_site(register, tables, &span.key.at.site) {
        return Err(Fault::NeedMissing);
    }
    put_row(tables.spans, &mut register.used.spans, span)
}

// A span that is still needed stays.
pub(crate) fn drop_span(
    register: &mut Register,
    tables: &mut Tables,
    span: &Span,
) -> Result<(), Fault>
    ensures { Step (λ P s. drop_span s span.now) register.old tables.old result register.new tables.new }
{
    if !has_span_record(register, tables, span) {
        return Err(Fault::RecordAbsent);
    }
    if needs_span(register, tables, span) {
        return Err(Fault::StillNeeded);
    }
    drop_row(tables.spans, &mut register.used.spans, span)
}

// A parameter of a station needs its site and a span.
pub(crate) fn put_apriori(
    register: &mut Register,
    tables: &mut Tables,
    apriori: Parameter,
) -> Result<(), Fault>
    requires { ValidParameter apriori }
    ensures { Step (λ P s. put_apriori P s apriori) register.old tables.old result register.new tables.new }
{
    if !is_served(register, tables, &apriori) {
        return Err(Fault::NeedMissing);
    }
    put_row(tables.aprioris, &mut register.used.aprioris, apriori)
}

pub(crate) fn drop_apriori(
    register: &mut Register,
    tables: &mut Tables,
    apriori: &Parameter,
) -> Result<(), Fault>
    ensures { Step (λ P s. drop_apriori s apriori.now) register.old tables.old result register.new tables.new }
{
    drop_row(tables.aprioris, &mut register.used.aprioris, apriori)
}

// A new estimate gets a rank with zero cells; one that takes another's place keeps the cells.
pub(crate) fn put_estimate(
    register: &mut Register,
    tables: &mut Tables,
    estimate: Parameter,
) -> Result<(), Fault>
    requires { ValidParameter estimate }
    ensures { Step (λ P s. put_estimate P s estimate) register.old tables.old result register.new tables.new }
{
    if !is_served(register, tables, &estimate) {
        return Err(Fault::NeedMissing);
    }
    let place = place_of(register, tables, &estimate);
    open_for(register, tables, place)?;
    put_row(tables.estimates, &mut register.used.estimates, estimate)
}

// With its rank and its cells.
pub(crate) fn drop_estimate(
    register: &mut Register,
    tables: &mut Tables,
    estimate: &Parameter,
) -> Result<(), Fault>
    ensures { Step (λ P s. drop_estimate s estimate.now) register.old tables.old result register.new tables.new }
{
    let rank = rank_of(register, tables, estimate)?;
    close_at(register, tables, rank)?;
    drop_row(tables.estimates, &mut register.used.estimates, estimate)
}

// Sets the cell of two estimates, in either order.
pub(crate) fn set_cell_of(
    register: &Register,
    tables: &mut Tables,
    first: &Parameter,
    second: &Parameter,
    value: Number,
) -> Result<(), Fault>
    requires { Canonical 14 value }
    ensures { Step (λ P s. set_cell s first.now second.now value) register.now tables.old result register.now tables.new }
{
    let i = rank_of(register, tables, first)?;
    let j = rank_of(register, tables, second)?;
    set_cell(tables.cells, i, j, value)
}
