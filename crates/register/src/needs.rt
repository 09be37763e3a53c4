// What records need of each other, looked for in the used places of the tables.
ghost use Rattle.model.specs.Needs.{any_of, has_span, site_needed, span_needed};
ghost use Rattle.model.specs.Steps.{shown, site_known, served_in};
ghost use Rattle.register.specs.Tests.{Computes};
ghost use Rattle.register.specs.Views.{view};
ghost use Rattle.records.specs.Spans.{span_order};
ghost use Rattle.tables.specs.Rows.{known, used_rows};
ghost use Rattle.std.specs.Prelude.{◌≡◌, Bool};

use crate::lent::{Register, Tables};
use model::needs::is_stationed;
use records::keys::{SiteKey, SolutionKey, compare_site_keys, compare_solution_keys};
use records::parameters::Parameter;
use records::sites::Site;
use records::spans::Span;
use tables::table::{Record, has_row};

// Whether one of the first `used` rows meets the test.
fn any_used<R, F: Fn(&R) -> bool>(rows: &[R], used: usize, test: F) -> bool
    requires { (state : F) (x : _) → F.pre state x }
    ensures { (met : R → Bool) → Computes F.Fn met test → result ≡ any_of met (used_rows used rows.now) }
{
    rows[..used.min(rows.len())].iter().any(test)
}

// Whether the site is there.
pub(crate) fn has_site(register: &Register, tables: &Tables, key: &SiteKey) -> bool
    ensures { result ≡ site_known (view register.now tables.now) key.now }
{
    let site = Site {
        key: *key,
        ..<Site as Record>::blank()
    };
    has_row(tables.sites, register.used.sites, &site)
}

// Whether there is a span of the span's key.
pub(crate) fn has_span_record(register: &Register, tables: &Tables, span: &Span) -> bool
    ensures { result ≡ known span_order span.now register.now.used.spans tables.now.spans.now }
{
    has_row(tables.spans, register.used.spans, span)
}

// Whether the solution has a span.
fn has_span(register: &Register, tables: &Tables, key: &SolutionKey) -> bool
    ensures { result ≡ has_span (shown (view register.now tables.now)) key.now }
{
    any_used(tables.spans, register.used.spans, |span| {
        compare_solution_keys(&span.key.at, key).is_eq()
    })
}

// Whether what the parameter needs is there.
pub(crate) fn is_served(register: &Register, tables: &Tables, p: &Parameter) -> bool
    ensures { result ≡ served_in (view register.now tables.now) p.now }
{
    let stationed = is_stationed(p);
    let site = has_site(register, tables, &p.key.at.site);
    let span = has_span(register, tables, &p.key.at);
    !stationed || (site && span)
}

// Whether a span, or a parameter of a station, needs the site.
pub(crate) fn needs_site(register: &Register, tables: &Tables, key: &SiteKey) -> bool
    ensures { result ≡ site_needed (shown (view register.now tables.now)) key.now }
{
    let on = |p: &Parameter| is_stationed(p) && compare_site_keys(&p.key.at.site, key).is_eq();
    let span = any_used(tables.spans, register.used.spans, |span| {
        compare_site_keys(&span.key.at.site, key).is_eq()
    });
    let estimate = any_used(tables.estimates, register.used.estimates, on);
    let apriori = any_used(tables.aprioris, register.used.aprioris, on);
    span || (estimate || apriori)
}

// Whether the span is the last of its solution, and a parameter of a station needs it.
pub(crate) fn needs_span(register: &Register, tables: &Tables, span: &Span) -> bool
    ensures { result ≡ span_needed (shown (view register.now tables.now)) span.now }
{
    let at = |p: &Parameter| is_stationed(p)
        && compare_solution_keys(&p.key.at, &span.key.at).is_eq();
    let another = any_used(tables.spans, register.used.spans, |other| {
        compare_solution_keys(&other.key.at, &span.key.at).is_eq() && !other.compare(span).is_eq()
    });
    let estimate = any_used(tables.estimates, register.used.estimates, at);
    let apriori = any_used(tables.aprioris, register.used.aprioris, at);
    !another && (estimate || apriori)
}
