// What sites, spans and parameters are known by.
ghost use Rattle.std.specs.Prelude.{◌≡◌, ◌≤◌, length};
ghost use Rattle.records.specs.Keys.{site_key_order, solution_key_order, site_key_by, solution_key_by, blank_site_key, blank_solution_key};
ghost use Rattle.records.specs.Copies.{site_key_text, solution_key_text};

use codes::texts::{check_blank, read_text};
use refusals::Fault;
use std::cmp::Ordering;

// A site: its code, and the code of a point there. Sites are ordered by both.
#[derive(Clone, Copy, PartialEq, Eq, PartialOrd, Ord, Debug)]
pub struct SiteKey {
    pub code: [u8; 4],
    pub point: [u8; 2],
}

// A solution at a site: what a parameter of a station needs a span of. Solutions are ordered by site first.
#[derive(Clone, Copy, PartialEq, Eq, PartialOrd, Ord, Debug)]
pub struct SolutionKey {
    pub site: SiteKey,
    pub solution: [u8; 4],
}

pub fn compare_site_keys(site: &SiteKey, other: &SiteKey) -> Ordering
    ensures { result ≡ site_key_order site.now other.now }
{
    site.cmp(other)
}

pub fn compare_solution_keys(solution: &SolutionKey, other: &SolutionKey) -> Ordering
    ensures { result ≡ solution_key_order solution.now other.now }
{
    solution.cmp(other)
}

impl SiteKey {
    // Of blanks alone.
    pub(crate) fn blank() -> SiteKey
        ensures { result ≡ blank_site_key }
    {
        SiteKey {
            code: [b' '; 4],
            point: [b' '; 2],
        }
    }
}

impl SolutionKey {
    // Of blanks alone.
    pub(crate) fn blank() -> SolutionKey
        ensures { result ≡ blank_solution_key }
    {
        SolutionKey {
            site: SiteKey::blank(),
            solution: [b' '; 4],
        }
    }
}

// What is done with the columns between the codes of a key.
pub(crate) trait Between {
    ghost use Rattle.std.specs.Prelude.{◌≡◌, ℕ, List, Result};
    ghost use Rattle.refusals.specs.declared.Fault.{Fault};

    ghost check: { List ℕ → Result (Unit {0}) Fault };

    fn check(columns: &[u8]) -> Result<(), Fault>
        ensures { result ≡ check columns.now };
}

// They have to be blank.
pub(crate) struct Blank;

// They are not looked at.
pub(crate) struct Ignored;

impl Between for Blank {
    ghost use Rattle.codes.specs.Text.{check_blank};

    ghost check = { check_blank };

    fn check(columns: &[u8]) -> Result<(), Fault> {
        check_blank(columns)
    }
}

impl Between for Ignored {
    ghost use Rattle.records.specs.Keys.{not_looked_at};

    ghost check = { not_looked_at };

    fn check(_columns: &[u8]) -> Result<(), Fault> {
        Ok(())
    }
}

// A site code, a column between and a point code: seven columns.
pub(crate) fn read_site_columns<B: Between>(columns: &[u8]) -> Result<SiteKey, Fault>
    requires { 7 ≤ length columns.now }
    ensures { result ≡ site_key_by B.check columns.now }
{
    let code = read_text(&columns[0..4])?;
    B::check(&columns[4..5])?;
    let point = read_text(&columns[5..7])?;
    Ok(SiteKey { code, point })
}

// A site's seven columns, a column between and the number of a solution: twelve columns.
pub(crate) fn read_solution_columns<B: Between>(columns: &[u8]) -> Result<SolutionKey, Fault>
    requires { 12 ≤ length columns.now }
    ensures { result ≡ solution_key_by B.check columns.now }
{
    let site = read_site_columns::<B>(&columns[0..7])?;
    B::check(&columns[7..8])?;
    let solution = read_text(&columns[8..12])?;
    Ok(SolutionKey { site, solution })
}

// A site's seven columns.
pub(crate) fn write_site_columns(k: &SiteKey) -> [u8; 7]
    ensures { result ≡ site_key_text k.now }
{
    let mut out = [b' '; 7];
    out[5..7].copy_from_slice(&k.point);
    out[0..4].copy_from_slice(&k.code);
    out
}

// A solution's twelve columns.
pub(crate) fn write_solution_columns(k: &SolutionKey) -> [u8; 12]
    ensures { result ≡ solution_key_text k.now }
{
    let mut out = [b' '; 12];
    out[8..12].copy_from_slice(&k.solution);
    out[0..7].copy_from_slice(&write_site_columns(&k.site));
    out
}
